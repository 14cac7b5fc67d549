// The members of a leaf, a space of few vectors, that its words rule out: 64 of them, a group, at a time.
#![tactic(auto)]

ghost use Rattle.std.specs.Prelude.{◌≡◌, ℕ, ◌+◌, ◌*◌, ◌≤◌, ◌<◌, length};
ghost use Rattle.words_gf2.specs.Words.{digit};
ghost use Rattle.search_rows.specs.Leaf.{AllMatched, Matched};
ghost use Rattle.search_excluding.specs.Excluding.{Kills};

// The lanes of a group that read the bit of a column.
fn lanes_of(words: &[u64], place: usize, group: usize) -> u64
    requires { (place + 1 < length words.now) × (group < 64) }
    ensures { (i : ℕ) → i < 64 → digit result i ≡ 1 → Matched words.now place group i }
{
    let low = words[place];
    let high = words[place + 1];
    if (high >> group) % 2 == 1 {
        low ^ search_lanes::ALL
    } else {
        low
    }
}

// The lanes of a group that show a row.
fn showing(words: &[u64], first: usize, columns: usize, group: usize) -> u64
    requires { (2 ≤ columns) × (columns ≤ 64) × (first + columns * 2 ≤ length words.now) × (group < 64) }
    ensures { (i : ℕ) → i < 64 → digit result i ≡ 1 → AllMatched words.now first columns group i }
{
    let two = lanes_of(words, first, group) & lanes_of(words, first + 2, group);
    if columns == 2 {
        return two;
    }
    let mut lanes = two & lanes_of(words, first + 4, group);
    for column in 3..columns {
        if lanes == 0 {
            return 0;
        }
        lanes = lanes & lanes_of(words, first + column * 2, group);
    }
    lanes
}

// The lanes of a group that show one of the rows.
// Not every such lane need be among them: the members of the other lanes are tried.
// An inner function: its callers show that a row has 2 to 64 columns, that there are words for so many rows and that the group is one of 64.
pub fn dead_lanes(words: &[u64], columns: usize, count: usize, group: usize) -> u64
    requires { (2 ≤ columns) × (columns ≤ 64) × (count * (columns * 2) ≤ length words.now) × (group < 64) }
    ensures { Kills words.now columns count group result }
{
    let width = columns * 2;
    let mut dead: u64 = 0;
    for row in 0..count {
        dead = dead | showing(words, row * width, columns, group);
        if dead == search_lanes::ALL {
            return dead;
        }
    }
    dead
}
