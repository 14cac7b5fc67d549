// The members of a space whose slices agree with those of a window, and with the stop after it (document 01, "Covering and cutting").
#![tactic(auto)]

ghost use Rattle.std.specs.Prelude.{false, ◌≡◌, ◌+◌, ◌*◌, ◌^◌, ◌<◌, ◌≤◌, length};
ghost use Rattle.machine_slices.specs.Slices.{bad_slices, paired};
ghost use Rattle.window_rows.specs.Meeting.{all_meet};
ghost use Rattle.window_rows.specs.Narrowing.{NarrowedIf};
ghost use Rattle.window_fitting.specs.Closing.{closed};

use machine_slices::TestSlice;
use search_space::Space;

// The members of a space whose slices agree with the window, row by row, or None where there is none. A space that is absent stays so, and the buffer as it was.
// Which members are left is fixed; which vectors lead to them, and what stands behind those in the buffer, is left open.
// An inner function: its callers show that the slices are well-formed and that the table has a row for each.
pub fn fit(
    vectors: &mut [u64],
    space: Option<Space>,
    table: &[u64],
    chains: usize,
    specified: &[u64],
    bits: &[u64],
) -> Option<Space>
    requires bits_value { bad_slices chains specified.now bits.now ≡ false }
    requires chains_in_bounds { length specified.now * chains ≤ length table.now }
    ensures { NarrowedIf (all_meet chains table.now 0 (paired specified.now bits.now)) space vectors.old result vectors.new }
{
    let mut kept = space?;
    for slice in 0..specified.len() {
        let test = TestSlice {
            specified: specified[slice],
            bits: bits[slice],
        };
        kept = window_rows::meet_row(vectors, Some(kept), table, chains, slice, test)?;
    }
    Some(kept)
}

// The members of a space that, where a window of so many slices must close, show the stop after it, or None where there is none. A space that is absent stays so, and the buffer as it was.
// Which members are left is fixed; which vectors lead to them, and what stands behind those in the buffer, is left open.
// An inner function: its callers show that the stop specifies no more positions than there are chains and that the table has a row after the slices.
pub fn close(
    vectors: &mut [u64],
    space: Option<Space>,
    table: &[u64],
    chains: usize,
    stop: TestSlice,
    closing: bool,
    slices: usize,
) -> Option<Space>
    requires specified_bound { stop.specified < 2 ^ chains }
    requires chains_in_bounds { slices * chains + chains ≤ length table.now }
    ensures { NarrowedIf (closed chains table.now stop closing slices) space vectors.old result vectors.new }
{
    if closing {
        return window_rows::meet_row(vectors, space, table, chains, slices, stop);
    }
    space
}
