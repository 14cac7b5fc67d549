// How far a window may go by what its rows force.
#![tactic(auto)]

ghost use Rattle.std.specs.Prelude.{false, ◌≡◌, ◌*◌, ◌≤◌, length};
ghost use Rattle.machine_slices.specs.Slices.{bad_slices, paired};
ghost use Rattle.window_rows.specs.Most.{Most};
ghost use Rattle.window_quiet.specs.Quiet.{quiet_meet};

use machine_slices::TestSlice;
use search_rows::Pattern;
use search_space::Space;

// How many slices of a part, from the first on, a state may meet without showing the stop in any of them, as far as equations tell: what each row forces is entered into a space of its own, slice by slice. No state meets more so.
// The number may be too great, and how much so is left open: the lengths up to it are tried.
// An inner function: its callers show that the slices are well-formed, that both tables have a row for each and that there are at most 64 cells.
pub fn most_quiet(
    cells: usize,
    pattern: Pattern,
    table: &[u64],
    stops: &[u64],
    chains: usize,
    specified: &[u64],
    bits: &[u64],
) -> usize
    requires slices { bad_slices chains specified.now bits.now ≡ false }
    requires table { length specified.now * chains ≤ length table.now }
    requires stops { (cells ≤ 64) × (length specified.now * pattern.columns ≤ length stops.now) }
    ensures { Most (quiet_meet chains table.now pattern stops.now) (paired specified.now bits.now) cells result }
{
    let mut vectors = search_space::units();
    let mut kept = Space {
        lowest: 0,
        free: cells,
    };
    for slice in 0..specified.len() {
        let test = TestSlice {
            specified: specified[slice],
            bits: bits[slice],
        };
        let met = window_rows::meet_row(&mut vectors, Some(kept), table, chains, slice, test);
        let forced = search_forcing::force_row(pattern, stops, slice, &mut vectors, met);
        let Some(quiet) = forced else { return slice };
        kept = quiet;
    }
    specified.len()
}
