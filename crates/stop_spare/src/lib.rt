// The spare pattern of a set (document 02, R-1). Nothing is kept for each slice: a pattern is looked up in one pass over the slices.
#![tactic(auto)]

ghost use Rattle.std.specs.Prelude.{◌≡◌, ◌-◌, ◌^◌, ◌≤◌, ◌<◌, length};
ghost use Rattle.words_bounded.specs.Bounded.{any};
ghost use Rattle.machine_slices.specs.Slices.{paired};
ghost use Rattle.stop_spare.specs.Spare.{equals, spare_stop};

use machine_slices::TestSlice;

// Whether a test slice has the specified positions and the bits of the pattern; of two lists unequally long, the shorter counts.
fn taken(pattern: TestSlice, specified: &[u64], bits: &[u64]) -> bool
    ensures { result ≡ any (equals pattern) (paired specified.now bits.now) }
{
    // By index: a chain over both lists takes twice as long here.
    let slices = specified.len().min(bits.len());
    for i in 0..slices {
        let test = TestSlice {
            specified: specified[i],
            bits: bits[i],
        };
        if test == pattern {
            return true;
        }
    }
    false
}

// A candidate as one of so many patterns: it is specified at every position.
fn pattern_of(patterns: u64, candidate: u64) -> TestSlice
    requires { 0 < patterns }
    ensures { result ≡ record { specified = patterns - 1; bits = candidate } }
{
    TestSlice {
        specified: patterns - 1,
        bits: candidate,
    }
}

// The smallest pattern that is not taken: the candidates are tried from 0 up.
// An inner function: its caller shows that there are no more patterns than slices, so no more candidates are tried than there are slices.
pub fn spare(chains: usize, specified: &[u64], bits: &[u64]) -> Option<TestSlice>
    requires few { 2 ^ chains ≤ length (paired specified.now bits.now) }
    ensures { result ≡ spare_stop chains (paired specified.now bits.now) }
{
    let patterns = 1u64 << chains;
    for candidate in 0..patterns {
        let pattern = pattern_of(patterns, candidate);
        if !taken(pattern, specified, bits) {
            return Some(pattern);
        }
    }
    None
}
