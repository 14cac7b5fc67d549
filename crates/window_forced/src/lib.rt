// Forced positions: the members of a space that may be clear in the stop's rows.
#![tactic(auto)]

ghost use Rattle.std.specs.Prelude.{◌*◌, ◌≤◌, length, take};
ghost use Rattle.search_rows.specs.Rows.{clear};
ghost use Rattle.window_forced.specs.Keeping.{Kept, KeptIf};

use search_rows::Pattern;
use search_space::Space;

// The members of a space that may be clear in the first rows of the stop's table: what each row forces is entered, one row after the other. None says that there is none.
fn force_rows(
    pattern: Pattern,
    stops: &[u64],
    rows: usize,
    vectors: &mut [u64],
    space: Space,
) -> Option<Space>
    requires { rows * pattern.columns ≤ length stops.now }
    ensures { Kept (clear pattern stops.now rows) space (take space.free vectors.old) result vectors.new }
{
    let mut kept = space;
    for row in 0..rows {
        kept = search_forcing::force_row(pattern, stops, row, vectors, Some(kept))?;
    }
    Some(kept)
}

// The same, again and again while vectors go out: a position that is forced may force another. A space that is absent stays so, and the buffer as it was.
// Which other members are left besides is open: they are searched.
// An inner function: its callers show that the table has so many rows.
pub fn force(
    pattern: Pattern,
    stops: &[u64],
    rows: usize,
    vectors: &mut [u64],
    space: Option<Space>,
) -> Option<Space>
    requires { rows * pattern.columns ≤ length stops.now }
    ensures { KeptIf (clear pattern stops.now rows) space vectors.old result vectors.new }
{
    let space = space?;
    let mut free = space.free;
    let mut kept = force_rows(pattern, stops, rows, vectors, space)?;
    // Not a `for`: it ends when no vector goes out.
    while kept.free < free {
        free = kept.free;
        kept = force_rows(pattern, stops, rows, vectors, kept)?;
    }
    Some(kept)
}
