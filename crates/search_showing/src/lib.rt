// How the members of a space show a row of a table: all of them do, or all unless a mask reads a bit, or neither of the two is known.
#![tactic(auto)]

ghost use Rattle.std.specs.Prelude.{◌≡◌, ◌+◌, ◌*◌, ◌≤◌, ◌<◌, length, take};
ghost use Rattle.search_rows.specs.Rows.{row as row_of};
ghost use Rattle.search_showing.specs.Showing.{across as across_of, column as column_of, together as together_of};

use search_rows::Pattern;

// How the members of a space show a row: all do, or all do unless a mask reads a bit, or neither of the two is known.
#[derive(Clone, Copy)]
pub enum Shows {
    Always,
    Unless(u64, u64),
    Neither,
}

// How they show a row of one column, which has a mask and the pattern's bit.
fn column(mask: u64, bit: u64, lowest: u64, vectors: &[u64], free: usize) -> Shows
    requires { bit < 2 }
    ensures { result ≡ column_of mask bit lowest (take free vectors.now) }
{
    if search_pivot::splits(vectors, free, mask) {
        return Shows::Unless(mask, 1 - bit);
    }
    if words_gf2::odd(lowest, mask) == bit {
        return Shows::Always;
    }
    Shows::Neither
}

// How they show two parts of a row in one.
fn together(one: Shows, other: Shows) -> Shows
    ensures { result ≡ together_of one other }
{
    match one {
        Shows::Always => other,
        Shows::Unless(mask, bit) => match other {
            Shows::Always => Shows::Unless(mask, bit),
            Shows::Unless(_, _) => Shows::Neither,
            Shows::Neither => Shows::Neither,
        },
        Shows::Neither => Shows::Neither,
    }
}

// How they show a row of the table. It ends at the first column from which on neither can hold.
// An inner function: its callers show that the table has the row.
pub fn across(
    pattern: Pattern,
    table: &[u64],
    row: usize,
    lowest: u64,
    vectors: &[u64],
    free: usize,
) -> Shows
    requires { row * pattern.columns + pattern.columns ≤ length table.now }
    ensures { result ≡ across_of (row_of pattern.columns table.now row) pattern.bits lowest (take free vectors.now) }
{
    let columns = pattern.columns;
    let first = row * columns;
    let masks = &table[first..first + columns];
    let mut bits = pattern.bits;
    let mut shows = Shows::Always;
    for &mask in masks {
        let one = column(mask, bits % 2, lowest, vectors, free);
        shows = together(shows, one);
        if let Shows::Neither = shows {
            return Shows::Neither;
        }
        bits = bits / 2;
    }
    shows
}
