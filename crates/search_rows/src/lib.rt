// The rows of a table in which a state shows a pattern.
#![tactic(auto)]

ghost use Rattle.std.specs.Prelude.{◌≡◌, ◌+◌, ◌*◌, ◌≤◌, length};
ghost use Rattle.search_rows.specs.Rows.{shown as shown_of};
ghost use Rattle.search_rows.specs.First.{first_shown};

// The positions of a pattern, which are the columns of its table, and its bits there.
#[derive(Clone, Copy)]
pub struct Pattern {
    pub columns: usize,
    pub bits: u64,
}

// Whether a state shows the pattern in a row: each mask reads its bit.
fn shown(pattern: Pattern, table: &[u64], row: usize, state: u64) -> bool
    requires { row * pattern.columns + pattern.columns ≤ length table.now }
    ensures { result ≡ shown_of pattern table.now row state }
{
    let columns = pattern.columns;
    let first = row * columns;
    let mut bits = pattern.bits;
    for &mask in &table[first..first + columns] {
        if words_gf2::odd(state, mask) != bits % 2 {
            return false;
        }
        bits /= 2;
    }
    true
}

// The first row below the bound in which a state shows the pattern, or None where there is none.
// An inner function: its callers show that the table has so many rows.
pub fn first_shown(pattern: Pattern, table: &[u64], rows: usize, state: u64) -> Option<usize>
    requires { rows * pattern.columns ≤ length table.now }
    ensures { result ≡ first_shown pattern table.now rows state }
{
    for row in 0..rows {
        if shown(pattern, table, row, state) {
            return Some(row);
        }
    }
    None
}
