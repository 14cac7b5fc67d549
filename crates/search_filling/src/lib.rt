// The words of a leaf, a space of few vectors whose members are gone through 64 at a time: for each of the first rows that some member shows, two words for each column.
#![tactic(auto)]

ghost use Rattle.std.specs.Prelude.{true, ◌≡◌, ℕ, ◌+◌, ◌*◌, ◌≤◌, ◌<◌, get_or, length, take};
ghost use Rattle.search_rows.specs.Leaf.{Filled, LeafSized};
ghost use Rattle.search_filling.specs.Columns.{Reads, RowFilled};

use search_rows::Pattern;

// How many words a leaf has for its rows.
pub const LEAF_WORDS: usize = 512;

// The two words of a column. Members are numbered; the lanes of the first word go by the low six digits of the number, those of the second by the others.
#[derive(Clone, Copy)]
struct Column {
    low: u64,
    high: u64,
}

// The words of a mask: where a lane of the first and a lane of the second differ, that member reads the bit.
fn column_of(lowest: u64, vectors: &[u64], free: usize, mask: u64, bit: u64) -> Column
    requires { (6 ≤ free) × (free ≤ 12) × (free ≤ length vectors.now) × (bit < 2) }
    ensures { Reads lowest (take free vectors.now) mask bit result.low result.high }
{
    let six = search_lanes::VECTORS;
    let low = search_lanes::reading(0, &vectors[..six], mask);
    let high = search_lanes::reading(lowest, &vectors[six..free], mask);
    if bit == 1 {
        return Column { low, high };
    }
    Column {
        low,
        high: high ^ search_lanes::ALL,
    }
}

// The words of a row, from a place on. It says no where no member shows the row: then the words are of no use.
fn fill_row(
    pattern: Pattern,
    table: &[u64],
    row: usize,
    lowest: u64,
    vectors: &[u64],
    free: usize,
    words: &mut [u64],
    first: usize,
) -> bool
    requires leaf { LeafSized pattern free × (free ≤ length vectors.now) }
    requires table { row * pattern.columns + pattern.columns ≤ length table.now }
    requires space { first + pattern.columns * 2 ≤ length words.old }
    ensures before { (i : ℕ) → i < first → get_or words.new i 0 ≡ get_or words.old i 0 }
    ensures words { result ≡ true → RowFilled pattern table.now row lowest (take free vectors.now) words.new first }
{
    let columns = pattern.columns;
    let start = row * columns;
    let mut bits = pattern.bits;
    for column in 0..columns {
        let place = first + column * 2;
        let pair = column_of(lowest, vectors, free, table[start + column], bits % 2);
        let low = pair.low;
        let high = pair.high;
        words[place] = low;
        words[place + 1] = high;
        if (low | high) == 0 {
            return false;
        }
        bits = bits / 2;
    }
    true
}

// How many words are used for a pattern: so many that few members are left, and no more.
fn words_for(columns: usize) -> usize
    ensures { result ≤ 512 }
{
    if columns == 2 {
        return 112;
    }
    if columns == 3 {
        return 336;
    }
    LEAF_WORDS
}

// The words of the first rows that some member shows, as many as there are words for, and how many rows they are.
// Which rows have words, and what stands in the other words, is left open: words only rule members out.
// An inner function: its callers show that the space is that of a leaf, that the table has so many rows and that there are 512 words.
pub fn fill(
    pattern: Pattern,
    table: &[u64],
    rows: usize,
    lowest: u64,
    vectors: &[u64],
    free: usize,
    words: &mut [u64],
) -> usize
    requires leaf { LeafSized pattern free × (free ≤ length vectors.now) }
    requires table { rows * pattern.columns ≤ length table.now }
    requires space { length words.old ≡ 512 }
    ensures { Filled pattern table.now rows lowest (take free vectors.now) words.new result }
{
    let columns = pattern.columns;
    let width = columns * 2;
    let most = words_for(columns);
    let mut count: usize = 0;
    for row in 0..rows {
        let first = count * width;
        if most < first + width {
            return count;
        }
        if fill_row(pattern, table, row, lowest, vectors, free, words, first) {
            count += 1;
        }
    }
    count
}
