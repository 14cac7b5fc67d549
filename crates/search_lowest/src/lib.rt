// The search for the lowest member of a space that shows a pattern in no row of a table: its members in rising blocks first, then branch and bound over the whole.
#![tactic(auto)]

ghost use Rattle.std.specs.Prelude.{◌≡◌, ℕ, ◌*◌, ◌≤◌, length, take, Some};
ghost use Rattle.search_space.specs.Space.{Rising};
ghost use Rattle.search_found.specs.Search.{lowest_clear};

use search_branching::LEAF_VECTORS;
use search_rows::Pattern;

// How many of the last vectors are left to the search of the whole space.
const LAST_VECTORS: usize = 6;

// The first members of a space in rising order: those of its first vectors, then block by block those that add one vector more. Where clear members are many, an early block has one, and everything later is left at once.
// A state that it finds is the lowest clear member; where it finds none, nothing is promised.
fn rise(
    pattern: Pattern,
    table: &[u64],
    rows: usize,
    lowest: u64,
    vectors: [u64; 64],
    free: usize,
) -> Option<u64>
    requires rising { Rising lowest 0 (take free vectors) }
    requires columns_in_bounds { rows * pattern.columns ≤ length table.now }
    ensures { (s : ℕ) → result ≡ Some s → result ≡ lowest_clear pattern table.now rows lowest (take free vectors) }
{
    let most = free.min(64);
    let few = most.min(LEAF_VECTORS);
    let mut found = search_branching::branch(pattern, table, rows, lowest, vectors, few, None);
    for count in few..most.saturating_sub(LAST_VECTORS) {
        found = search_branching::branch(
            pattern,
            table,
            rows,
            lowest ^ vectors[count],
            vectors,
            count,
            found,
        );
    }
    found
}

// The lowest member of the space that shows the pattern in none of the first rows. The space is its lowest member and the first vectors.
// An inner function: its callers show that the vectors rise, so that the lowest member is the lowest, and that the table has so many rows.
pub fn lowest_clear(
    pattern: Pattern,
    table: &[u64],
    rows: usize,
    lowest: u64,
    vectors: [u64; 64],
    free: usize,
) -> Option<u64>
    requires rising { Rising lowest 0 (take free vectors) }
    requires columns_in_bounds { rows * pattern.columns ≤ length table.now }
    ensures { result ≡ lowest_clear pattern table.now rows lowest (take free vectors) }
{
    if LEAF_VECTORS < free {
        let found = rise(pattern, table, rows, lowest, vectors, free);
        if let Some(state) = found {
            return Some(state);
        }
    }
    search_branching::branch(pattern, table, rows, lowest, vectors, free, None)
}
