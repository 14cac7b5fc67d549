// The chains (document 01, "Register and chains"): the slice of a state, and the checks behind cause 2.
#![tactic(auto)]

ghost use Rattle.std.specs.Prelude.{◌≡◌, take};
ghost use Rattle.words_bounded.specs.Bounded.{any};
ghost use Rattle.machine_chains.specs.Chains.{bad_count, bad_mask, bad_chains, slice as slice_of};

// The most chains.
pub const MOST_CHAINS: usize = 64;

// Whether the number of chains alone is refused by cause 2.
pub fn bad_count(chains: usize) -> bool
    ensures { result ≡ bad_count chains }
{
    !words_bounded::within(1, MOST_CHAINS, chains)
}

// Whether a mask is 0 or has a bit at or above cells.
pub fn bad_mask(cells: usize, mask: u64) -> bool
    ensures { result ≡ bad_mask cells mask }
{
    if mask == 0 {
        return true;
    }
    words_gf2::beyond(cells, mask)
}

// Whether some mask is bad.
fn some_bad_mask(cells: usize, masks: &[u64]) -> bool
    ensures { result ≡ any (bad_mask cells) masks.now }
{
    masks.iter().any(|&mask| bad_mask(cells, mask))
}

// Whether cause 2 holds: chains not 1 to 64, or a bad mask.
pub fn bad_chains(cells: usize, masks: &[u64]) -> bool
    ensures { result ≡ bad_chains cells masks.now }
{
    if bad_count(masks.len()) {
        return true;
    }
    some_bad_mask(cells, masks)
}

// The slice of a state under the first 64 masks, chain 1 lowest.
pub fn slice(masks: &[u64], state: u64) -> u64
    ensures { result ≡ slice_of (take 64 masks.now) state }
{
    let count = MOST_CHAINS.min(masks.len());
    let mut bits: u64 = 0;
    for &mask in masks[..count].iter().rev() {
        bits = bits * 2 + words_gf2::odd(state, mask);
    }
    bits
}
