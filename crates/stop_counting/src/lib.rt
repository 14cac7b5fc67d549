// Which test slices are still in (document 004, III.A). Nothing is kept for each slice: whether one is in is looked up.
#![tactic(auto)]

ghost use Rattle.std.specs.Prelude.{◌≡◌, ◌<◌};
ghost use Rattle.stop_steps.specs.Steps.{put as put_of};
ghost use Rattle.stop_steps.specs.Lookup.{is_in, in_count};
ghost use Rattle.stop_counting.specs.Unset.{Unset};

use machine_slices::TestSlice;

// Whether a test slice is still in: it has the stop's bit at each position set so far.
fn is_in(stop: TestSlice, test: TestSlice) -> bool
    ensures { result ≡ is_in stop test }
{
    if test.specified & stop.specified != stop.specified {
        return false;
    }
    machine_slices::shows(stop, test.bits)
}

// How many test slices are still in; of two lists unequally long, the shorter counts. Under a stop slice with a bit that is not specified, none is.
pub fn count_in(stop: TestSlice, specified: &[u64], bits: &[u64]) -> usize
    ensures { result ≡ in_count stop specified.now bits.now }
{
    // By index: a chain over both lists takes two to eight times as long here.
    let slices = specified.len().min(bits.len());
    let mut count = 0;
    for i in 0..slices {
        let test = TestSlice {
            specified: specified[i],
            bits: bits[i],
        };
        if is_in(stop, test) {
            count += 1;
        }
    }
    count
}

// The stop slice with an unset position set to a bit.
// An inner function: its callers show that the position is unset and that the bit is one.
pub fn put(stop: TestSlice, position: usize, bit: u64) -> TestSlice
    requires unset { Unset position stop }
    requires bit { bit < 2 }
    ensures { result ≡ put_of position bit stop }
{
    let weight = 1u64 << position;
    let specified = stop.specified + weight;
    let bits = stop.bits + bit * weight;
    TestSlice { specified, bits }
}
