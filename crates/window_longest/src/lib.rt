// The longest window from a start: the spaces of its first slices are kept, and lengths are tried from the longest that the equations allow down.
#![tactic(auto)]

ghost use Rattle.std.specs.Prelude.{false, ◌≡◌, suc, length};
ghost use Rattle.machine_settings.specs.Machine.{machine};
ghost use Rattle.machine_slices.specs.Slices.{bad_slices, paired};
ghost use Rattle.window_tables.specs.Tables.{TablesFor};
ghost use Rattle.window_rows.specs.Most.{Most};
ghost use Rattle.window_quiet.specs.Quiet.{quiet_meet};
ghost use Rattle.window_lengths.specs.Longest.{reach_of};

use window_lengths::Window;
use window_tables::Sought;

// Up to how many slices a part is short, and the entries for the spaces of a short part and of a long one, of up to 256 slices.
const SHORT_PART: usize = 16;

const FEW_ENTRIES: usize = 1056;

const MOST_SPACES: usize = 16896;

// The longest window, or none, of a part whose states are quiet in so many slices at most, with entries for the spaces that are kept. The equations of a slice are entered once; each length takes up the space that its slices left.
fn reach_with(
    sought: Sought,
    masks: &[u64],
    table: &[u64],
    stops: &[u64],
    specified: &[u64],
    bits: &[u64],
    quiet: usize,
    spaces: &mut [u64],
) -> Option<Window>
    requires ready { TablesFor sought masks.now table.now stops.now (suc (length specified.now)) }
    requires slices { bad_slices (length masks.now) specified.now bits.now ≡ false }
    requires quiet { Most (quiet_meet (length masks.now) table.now sought.pattern stops.now) (paired specified.now bits.now) sought.settings.cells quiet }
    ensures { result ≡ reach_of (machine sought.settings masks.now) sought.stop sought.closing (paired specified.now bits.now) }
{
    let met = window_growing::grow(
        sought.settings.cells,
        table,
        masks.len(),
        &specified[..quiet],
        &bits[..quiet],
        spaces,
    );
    window_lengths::descend(sought, masks, table, stops, specified, bits, spaces, met)
}

// The longest window from the first slice of a part on that some state covers, and its seed, or none: lengths are tried from the longest that the equations allow down.
// A window that takes the whole part closes with its stop where `sought` says so, a shorter one always.
// An inner function: its callers show that the part is well-formed and that the tables are those of the register, the chains and the stop slice.
pub fn reach(
    sought: Sought,
    masks: &[u64],
    table: &[u64],
    stops: &[u64],
    specified: &[u64],
    bits: &[u64],
) -> Option<Window>
    requires tables_for { TablesFor sought masks.now table.now stops.now (suc (length specified.now)) }
    requires bits_value { bad_slices (length masks.now) specified.now bits.now ≡ false }
    ensures { result ≡ reach_of (machine sought.settings masks.now) sought.stop sought.closing (paired specified.now bits.now) }
{
    let chains = masks.len();
    let quiet = window_quiet::most_quiet(
        sought.settings.cells,
        sought.pattern,
        table,
        stops,
        chains,
        specified,
        bits,
    );
    if quiet <= SHORT_PART {
        let mut few = [0u64; FEW_ENTRIES];
        return reach_with(
            sought, masks, table, stops, specified, bits, quiet, &mut few,
        );
    }
    let mut spaces = [0u64; MOST_SPACES];
    reach_with(
        sought,
        masks,
        table,
        stops,
        specified,
        bits,
        quiet,
        &mut spaces,
    )
}
