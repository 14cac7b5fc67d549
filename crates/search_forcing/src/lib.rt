// What a row of a table forces in a space of states, where no member may show the pattern in the row: an equation, or that no member is left.
#![tactic(auto)]

ghost use Rattle.std.specs.Prelude.{◌≡◌, ◌+◌, ◌*◌, ◌≤◌, length};
ghost use Rattle.search_forcing.specs.Forcing.{forced_buffer, forced_if};

use search_rows::Pattern;
use search_showing::Shows;
use search_space::Space;

// The space, and in the buffer its vectors, where no member may show the pattern in a row: what the row forces is entered. Each member that does not show the row is kept; None says that there is none. A space that is absent stays so, and the buffer as it was.
// An inner function: its callers show that the table has the row.
pub fn force_row(
    pattern: Pattern,
    table: &[u64],
    row: usize,
    vectors: &mut [u64],
    space: Option<Space>,
) -> Option<Space>
    requires { row * pattern.columns + pattern.columns ≤ length table.now }
    ensures answer { result ≡ forced_if pattern table.now row vectors.old space }
    ensures buffer { vectors.new ≡ forced_buffer pattern table.now row vectors.old space }
{
    let space = space?;
    let shows = search_showing::across(pattern, table, row, space.lowest, vectors, space.free);
    match shows {
        Shows::Always => None,
        Shows::Unless(mask, bit) => search_restrict::restrict(vectors, Some(space), mask, bit),
        Shows::Neither => Some(space),
    }
}
