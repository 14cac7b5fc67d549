// Lengths (document 01, cause 3 of its refusal sheet; document 02, R-3).
#![tactic(auto)]

ghost use Rattle.std.specs.Prelude.{◌≡◌};
ghost use Rattle.refusal_lengths.specs.Lengths.{bad_limit, bad_window, bad_set, bad_cubes, bad_list};

// The most slices of a set, and the most seeds of a list.
pub const MOST_SLICES: usize = 2048;
// The greatest depth.
pub const MOST_DEPTH: usize = 256;
// The greatest limit of a window.
pub const MOST_LIMIT: usize = 256;

// Cause 3 of the settings: the limit of a window not 1 to 256.
pub fn bad_limit(limit: usize) -> bool
    ensures { result ≡ bad_limit limit }
{
    !words_bounded::within(1, MOST_LIMIT, limit)
}

// Cause 3 of a window: its length not 1 to the limit.
pub fn bad_window(limit: usize, slices: usize) -> bool
    ensures { result ≡ bad_window limit slices }
{
    !words_bounded::within(1, limit, slices)
}

// Cause 3 of a set: slices none or above 2,048.
pub fn bad_set(slices: usize) -> bool
    ensures { result ≡ bad_set slices }
{
    !words_bounded::within(1, MOST_SLICES, slices)
}

// Cause 3 of a set that comes as cubes: depth not 1 to 256, or slices none, above 2,048 or no multiple of depth.
pub fn bad_cubes(depth: usize, slices: usize) -> bool
    ensures { result ≡ bad_cubes depth slices }
{
    if !words_bounded::within(1, MOST_DEPTH, depth) {
        return true;
    }
    if bad_set(slices) {
        return true;
    }
    slices % depth != 0
}

// Cause 3 of a seed list: slices not 1 to 2,048, or more than 2,048 seeds.
pub fn bad_list(slices: usize, seeds: usize) -> bool
    ensures { result ≡ bad_list slices seeds }
{
    if bad_set(slices) {
        return true;
    }
    MOST_SLICES < seeds
}
