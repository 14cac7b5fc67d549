// Branch and bound for the lowest member of a space that shows a pattern in no row of a table; a space of few vectors is a leaf and is gone through 64 members at a time.
#![tactic(auto)]

ghost use Rattle.std.specs.Prelude.{true, ◌≡◌, ◌*◌, ◌≤◌, length, take};
ghost use Rattle.search_space.specs.Space.{Rising};
ghost use Rattle.search_rows.specs.Leaf.{LeafSized};
ghost use Rattle.search_found.specs.Search.{lowest_clear};
ghost use Rattle.search_found.specs.Lower.{lower};

use search_rows::Pattern;

// How many vectors the space of a leaf has at most.
pub const LEAF_VECTORS: usize = 12;

// Whether a space is gone through 64 members at a time: it has 6 to 12 vectors, and the pattern 2 to 64 positions.
fn is_leaf(pattern: Pattern, free: usize) -> bool
    ensures { result ≡ true → LeafSized pattern free }
{
    if words_bounded::within(search_lanes::VECTORS, LEAF_VECTORS, free) {
        return words_bounded::within(2, 64, pattern.columns);
    }
    false
}

// The same as `branch` for a space of few vectors, 64 members at a time.
fn leaf(
    pattern: Pattern,
    table: &[u64],
    rows: usize,
    lowest: u64,
    vectors: &[u64],
    free: usize,
    before: Option<u64>,
) -> Option<u64>
    requires leaf { LeafSized pattern free × (free ≤ length vectors.now) }
    requires rising { Rising lowest 0 (take free vectors.now) }
    requires table { rows * pattern.columns ≤ length table.now }
    ensures { result ≡ lower before (lowest_clear pattern table.now rows lowest (take free vectors.now)) }
{
    let mut words = [0u64; search_filling::LEAF_WORDS];
    let count = search_filling::fill(pattern, table, rows, lowest, vectors, free, &mut words);
    search_sifting::sift(
        pattern, table, rows, lowest, vectors, free, &words, count, before,
    )
}

// The lower of what was found before and the lowest member of the space that shows the pattern in none of the first rows. The space is its lowest member and the first vectors.
// Branch and bound on the first row in which the lowest member shows the pattern.
// An inner function: its callers show that the vectors rise, so that the lowest member is the lowest, and that the table has so many rows.
pub fn branch(
    pattern: Pattern,
    table: &[u64],
    rows: usize,
    lowest: u64,
    vectors: [u64; 64],
    free: usize,
    before: Option<u64>,
) -> Option<u64>
    requires rising { Rising lowest 0 (take free vectors) }
    requires columns_in_bounds { rows * pattern.columns ≤ length table.now }
    ensures { result ≡ lower before (lowest_clear pattern table.now rows lowest (take free vectors)) }
{
    let mut rest = vectors;
    if search_found::reached(before, lowest) {
        return before;
    }
    if is_leaf(pattern, free) {
        return leaf(pattern, table, rows, lowest, &rest, free, before);
    }
    let Some(row) = search_rows::first_shown(pattern, table, rows, lowest) else {
        return Some(lowest);
    };
    let columns = pattern.columns;
    let first = row * columns;
    let masks = &table[first..first + columns];
    let mut left = free;
    let mut found = before;
    for &mask in masks {
        let taken = search_pivot::take_out(&mut rest, left, mask);
        left = taken.left;
        if taken.pivot != 0 {
            found = branch(
                pattern,
                table,
                rows,
                lowest ^ taken.pivot,
                rest,
                left,
                found,
            );
        }
    }
    found
}
