// The members of a space whose slice agrees with a test slice, read by a row of a table (document 01, "Covering and cutting").
#![tactic(auto)]

ghost use Rattle.std.specs.Prelude.{◌+◌, ◌*◌, ◌^◌, ◌<◌, ◌≤◌, length, take};
ghost use Rattle.search_rows.specs.Rows.{row as row_of};
ghost use Rattle.window_rows.specs.Meeting.{meets};
ghost use Rattle.window_rows.specs.Narrowing.{Narrowed, NarrowedIf};

use machine_slices::TestSlice;
use search_space::Space;

// The members of a space whose slice agrees with a test slice, or None where there is none; the row reads that slice.
fn meet(vectors: &mut [u64], space: Space, row: &[u64], specified: u64, bits: u64) -> Option<Space>
    requires { specified < 2 ^ length row.now }
    ensures { Narrowed (meets row.now specified bits) space (take space.free vectors.old) result vectors.new }
{
    let mut kept = space;
    let mut left = specified;
    let mut values = bits;
    let mut chain: usize = 0;
    // Not a `for`: it ends behind the last specified position.
    while left != 0 {
        if left % 2 == 1 {
            kept = search_restrict::restrict(vectors, Some(kept), row[chain], values % 2)?;
        }
        left = left / 2;
        values = values / 2;
        chain += 1;
    }
    Some(kept)
}

// The same by a row of the table. A space that is absent stays so, and the buffer as it was.
// Which members are left is fixed; which vectors lead to them, and what stands behind those in the buffer, is left open.
// An inner function: its callers show that the table has the row and that the test slice specifies no more positions than it has chains.
pub fn meet_row(
    vectors: &mut [u64],
    space: Option<Space>,
    table: &[u64],
    chains: usize,
    row: usize,
    test: TestSlice,
) -> Option<Space>
    requires specified_bound { test.specified < 2 ^ chains }
    requires chains_in_bounds { row * chains + chains ≤ length table.now }
    ensures { NarrowedIf (meets (row_of chains table.now row) test.specified test.bits) space vectors.old result vectors.new }
{
    let space = space?;
    let first = row * chains;
    let next = first + chains;
    meet(
        vectors,
        space,
        &table[first..next],
        test.specified,
        test.bits,
    )
}
