// The stop slice of a set (document 004, III.A, with the ties of document 01; where the steps end with slices in, document 02, R-1).
#![tactic(auto)]

ghost use Rattle.std.specs.Prelude.{◌≡◌, ◌^◌, ◌≤◌, length};
ghost use Rattle.machine_slices.specs.Slices.{paired};
ghost use Rattle.stop_steps.specs.Steps.{stop_for};
ghost use Rattle.stop_spare.specs.Spare.{spare_stop};
ghost use Rattle.stop_slice.specs.Entry.{stop_or6, stop_of};
ghost use Rattle.stop_slice.specs.Meaning.{FormedMeaning};

use machine_slices::TestSlice;
use refusal_causes::Cause;

// The spare pattern, or cause 6 where all are taken. There are no more patterns than slices where the steps end with slices in.
fn spared(chains: usize, specified: &[u64], bits: &[u64]) -> Result<TestSlice, Cause>
    requires few { 2 ^ chains ≤ length (paired specified.now bits.now) }
    ensures { result ≡ stop_or6 (spare_stop chains (paired specified.now bits.now)) }
{
    stop_spare::spare(chains, specified, bits).ok_or(Cause::AllTaken)
}

// The stop slice that the steps end with; where slices are in then, the spare pattern, or cause 6. Each step sets a position, so there are at most as many as chains.
fn form(chains: usize, specified: &[u64], bits: &[u64]) -> Result<TestSlice, Cause>
    requires { chains ≤ 64 }
    ensures { result ≡ stop_or6 (stop_for chains (paired specified.now bits.now)) }
{
    let mut stop = TestSlice {
        specified: 0,
        bits: 0,
    };
    for _ in 0..chains {
        stop = stop_choice::next(chains, stop, specified, bits);
    }
    let left = stop_counting::count_in(stop, specified, bits);
    if left == 0 {
        Ok(stop)
    } else {
        spared(chains, specified, bits)
    }
}

// The stop slice of a set, or causes 2, 3, 4 and 6.
pub fn stop_slice(chains: usize, specified: &[u64], bits: &[u64]) -> Result<TestSlice, Cause>
    ensures answer { result ≡ stop_of chains specified.now bits.now }
    ensures meaning { FormedMeaning chains specified.now bits.now result }
{
    refusal_checks::check_stop(chains, specified, bits)?;
    form(chains, specified, bits)
}
