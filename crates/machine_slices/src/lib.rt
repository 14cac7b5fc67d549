// Test slices and stop slices (document 01, "Register and chains"): agreeing, showing, and the checks behind causes 4 and 5.
#![tactic(auto)]

ghost use Rattle.std.specs.Prelude.{◌≡◌};
ghost use Rattle.machine_slices.specs.Slices.{agrees as agrees_of, shows as shows_of, bad_slice, bad_slices, bad_stop};

// A test slice or stop slice: its specified positions, and its bits there.
#[derive(Clone, Copy, PartialEq, Eq)]
pub struct TestSlice {
    pub specified: u64,
    pub bits: u64,
}

// Whether a slice agrees with every specified bit of a test slice.
pub fn agrees(test: TestSlice, slice: u64) -> bool
    ensures { result ≡ agrees_of test slice }
{
    slice & test.specified == test.bits
}

// Whether a slice shows the stop slice.
pub fn shows(stop: TestSlice, slice: u64) -> bool
    ensures { result ≡ shows_of stop slice }
{
    agrees(stop, slice)
}

// Whether a test slice has a bit set where unspecified, or a bit of either number beyond the chains.
fn bad_slice(chains: usize, test: TestSlice) -> bool
    ensures { result ≡ bad_slice chains test }
{
    if test.bits & test.specified != test.bits {
        return true;
    }
    if words_gf2::beyond(chains, test.specified) {
        return true;
    }
    words_gf2::beyond(chains, test.bits)
}

// Whether cause 4 holds: a bad test slice, or two lists unequally long.
pub fn bad_slices(chains: usize, specified: &[u64], bits: &[u64]) -> bool
    ensures { result ≡ bad_slices chains specified.now bits.now }
{
    if specified.len() != bits.len() {
        return true;
    }
    specified.iter().zip(bits).any(|(&specified, &bits)| {
        bad_slice(chains, TestSlice { specified, bits })
    })
}

// Whether cause 5 holds: a stop slice with no specified position, or formed as in cause 4.
pub fn bad_stop(chains: usize, stop: TestSlice) -> bool
    ensures { result ≡ bad_stop chains stop }
{
    if stop.specified == 0 {
        return true;
    }
    bad_slice(chains, stop)
}
