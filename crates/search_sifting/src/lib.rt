// The members of a leaf, a space of few vectors, gone through 64 at a time: words sift them, and those that are left are tried on every row.
#![tactic(auto)]

ghost use Rattle.std.specs.Prelude.{false, ◌≡◌, ℕ, ◌+◌, ◌*◌, ◌≤◌, ◌<◌, length, take};
ghost use Rattle.words_gf2.specs.Words.{digit};
ghost use Rattle.search_members.specs.Members.{pick};
ghost use Rattle.search_space.specs.Space.{Rising};
ghost use Rattle.search_rows.specs.Rows.{clear};
ghost use Rattle.search_rows.specs.Leaf.{Filled, LeafSized};
ghost use Rattle.search_found.specs.Search.{lowest_clear};
ghost use Rattle.search_found.specs.Lower.{lower};
ghost use Rattle.search_sifting.specs.Clear.{FirstClear};

use search_rows::Pattern;

// The first lane of a group whose member is clear, or None. The lanes that are dead are known not to be.
fn clear_lane(
    pattern: Pattern,
    table: &[u64],
    rows: usize,
    lowest: u64,
    vectors: &[u64],
    free: usize,
    group: usize,
    dead: u64,
) -> Option<usize>
    requires table { rows * pattern.columns ≤ length table.now }
    requires group { group < 64 }
    requires dead { (i : ℕ) → i < 64 → digit dead i ≡ 1 → clear pattern table.now rows (pick lowest (take free vectors.now) (group * 64 + i)) ≡ false }
    ensures { FirstClear pattern table.now rows lowest (take free vectors.now) (group * 64) result }
{
    let base = group * 64;
    for lane in 0..64 {
        if words_gf2::digit(dead, lane) == 0 {
            let state = search_members::member(lowest, vectors, free, base + lane);
            if search_rows::first_shown(pattern, table, rows, state).is_none() {
                return Some(lane);
            }
        }
    }
    None
}

// The groups of a leaf in rising order: 64 members at a time are sifted by the words, and those that are left are tried one by one, up to what was found before.
// An inner function: its callers show that the space is that of a leaf and its vectors rise, that the table has so many rows and that the words are those of a leaf for so many rows.
pub fn sift(
    pattern: Pattern,
    table: &[u64],
    rows: usize,
    lowest: u64,
    vectors: &[u64],
    free: usize,
    words: &[u64],
    count: usize,
    before: Option<u64>,
) -> Option<u64>
    requires leaf { LeafSized pattern free × (free ≤ length vectors.now) }
    requires rising { Rising lowest 0 (take free vectors.now) }
    requires table { rows * pattern.columns ≤ length table.now }
    requires filled { Filled pattern table.now rows lowest (take free vectors.now) words.now count }
    ensures { result ≡ lower before (lowest_clear pattern table.now rows lowest (take free vectors.now)) }
{
    let columns = pattern.columns;
    let groups = 1usize << (free - search_lanes::VECTORS);
    for group in 0..groups {
        let dead = search_excluding::dead_lanes(words, columns, count, group);
        if dead != search_lanes::ALL {
            if search_found::reached(
                before,
                search_members::member(lowest, vectors, free, group * 64),
            ) {
                return before;
            }
            if let Some(lane) = clear_lane(
                pattern, table, rows, lowest, vectors, free, group, dead,
            ) {
                return search_found::lower_of(
                    before,
                    search_members::member(lowest, vectors, free, group * 64 + lane),
                );
            }
        }
    }
    before
}
