// The spaces of the states that meet the first slices of a part: each is entered once and written at its place.
#![tactic(auto)]

ghost use Rattle.std.specs.Prelude.{false, ◌≡◌, ◌*◌, ◌≤◌, length};
ghost use Rattle.machine_slices.specs.Slices.{bad_slices, paired};
ghost use Rattle.window_rows.specs.Meeting.{all_meet};
ghost use Rattle.window_growing.specs.Growing.{Grown};

use machine_slices::TestSlice;
use search_space::Space;
use window_spaces::SPACE_ENTRIES;

// How many slices of a part, from the first on, are met together by some state; for each number of them up to that, as far as there are entries, the space of the states that meet them is written.
// Entries that hold none of these spaces are left open.
// An inner function: its callers show that the slices are well-formed, that the table has a row for each and that there are at most 64 cells.
pub fn grow(
    cells: usize,
    table: &[u64],
    chains: usize,
    specified: &[u64],
    bits: &[u64],
    spaces: &mut [u64],
) -> usize
    requires slices { bad_slices chains specified.now bits.now ≡ false }
    requires table { length specified.now * chains ≤ length table.now }
    requires space { cells ≤ 64 }
    ensures { Grown (all_meet chains table.now 0) chains table.now (paired specified.now bits.now) cells spaces.new result }
{
    let places = spaces.len() / SPACE_ENTRIES;
    let mut vectors = search_space::units();
    let mut kept = Space {
        lowest: 0,
        free: cells,
    };
    for slice in 0..specified.len() {
        let test = TestSlice {
            specified: specified[slice],
            bits: bits[slice],
        };
        let met = window_rows::meet_row(&mut vectors, Some(kept), table, chains, slice, test);
        let Some(left) = met else { return slice };
        kept = left;
        if slice < places {
            window_spaces::store(spaces, slice * SPACE_ENTRIES, kept, &vectors);
        }
    }
    specified.len()
}
