// One of the stop slice steps (document 004, III.A, with the ties of document 01): the choice, and the stop slice after it.
#![tactic(auto)]

ghost use Rattle.std.specs.Prelude.{◌≡◌, ◌≤◌, ◌<◌};
ghost use Rattle.stop_steps.specs.Lookup.{BitsSpecified};
ghost use Rattle.stop_choice.specs.Choosing.{track, weighed, chosen, next_of};

use machine_slices::TestSlice;

// The best of the choices seen, with its count. A choice is a position and a bit as one number, position * 2 + bit.
#[derive(Clone, Copy)]
struct Best {
    choice: usize,
    count: usize,
}

// A choice with its count against the best of the lower ones: it must have a greater count.
fn better(best: Option<Best>, choice: usize, count: usize) -> Option<Best>
    ensures { result ≡ track choice count best }
{
    match best {
        None => Some(Best { choice, count }),
        Some(other) => {
            let most = other.count;
            if most < count {
                Some(Best { choice, count })
            } else {
                best
            }
        }
    }
}

// The best choice when one choice more is weighed; a set position is never counted again.
fn weigh(
    best: Option<Best>,
    stop: TestSlice,
    choice: usize,
    specified: &[u64],
    bits: &[u64],
) -> Option<Best>
    requires choice { choice < 128 }
    requires stop { BitsSpecified stop }
    ensures { result ≡ weighed stop specified.now bits.now choice best }
{
    let position = choice / 2;
    if words_gf2::digit(stop.specified, position) == 0 {
        let counted = stop_counting::put(stop, position, (choice % 2) as u64);
        return better(
            best,
            choice,
            stop_counting::count_in(counted, specified, bits),
        );
    }
    best
}

// The choice of a step: the greatest count, on a tie the leftmost position, and there the 0s before the 1s.
// Not inlined: the caller's frame would be larger than the stack that c/seeds.h promises for a stop slice.
#[inline(never)]
fn choose(chains: usize, stop: TestSlice, specified: &[u64], bits: &[u64]) -> Option<Best>
    requires chains { chains ≤ 64 }
    requires stop { BitsSpecified stop }
    ensures { result ≡ chosen chains stop specified.now bits.now }
{
    let mut best = None;
    for choice in 0..2 * chains {
        best = weigh(best, stop, choice, specified, bits);
    }
    best
}

// The stop slice after one step more; unchanged where no slice is in or no position is unset.
// An inner function: its caller shows that there are at most 64 chains, and that no bit of the stop slice is set that is not specified.
pub fn next(chains: usize, stop: TestSlice, specified: &[u64], bits: &[u64]) -> TestSlice
    requires chains { chains ≤ 64 }
    requires stop { BitsSpecified stop }
    ensures { result ≡ next_of chains stop specified.now bits.now }
{
    if stop_counting::count_in(stop, specified, bits) == 0 {
        return stop;
    }
    let best = choose(chains, stop, specified, bits);
    match best {
        None => stop,
        Some(best) => {
            let choice = best.choice;
            stop_counting::put(stop, choice / 2, (1 - choice % 2) as u64)
        }
    }
}
