// The lengths of a window, tried from a longest one down; each takes up the space that its slices left.
#![tactic(auto)]

ghost use Rattle.std.specs.Prelude.{false, ◌≡◌, suc, ◌/◌, ◌<◌, ◌≤◌, length};
ghost use Rattle.machine_settings.specs.Machine.{machine};
ghost use Rattle.machine_slices.specs.Slices.{bad_slices, paired};
ghost use Rattle.theory_covering.specs.Covering.{seed_of};
ghost use Rattle.window_tables.specs.Tables.{TablesFor};
ghost use Rattle.window_quiet.specs.Quiet.{quiet_meet};
ghost use Rattle.window_growing.specs.Growing.{Grown, HeldAt};
ghost use Rattle.window_lengths.specs.Longest.{reach_of};

use search_space::Space;
use window_spaces::SPACE_ENTRIES;
use window_tables::Sought;

// The longest window from a start: how many slices it takes, and its seed.
#[derive(Clone, Copy)]
pub struct Window {
    pub slices: usize,
    pub seed: u64,
}

// The seed of a length: the space that its slices left is taken up where it was kept.
fn length_seed(
    sought: Sought,
    masks: &[u64],
    table: &[u64],
    stops: &[u64],
    specified: &[u64],
    bits: &[u64],
    spaces: &[u64],
) -> Option<u64>
    requires ready { TablesFor sought masks.now table.now stops.now (suc (length specified.now)) }
    requires slices { bad_slices (length masks.now) specified.now bits.now ≡ false }
    requires held { (0 < length specified.now) × (length specified.now ≤ length spaces.now / 66 → HeldAt (length masks.now) table.now (paired specified.now bits.now) sought.settings.cells spaces.now (length specified.now)) }
    ensures { result ≡ seed_of (machine sought.settings masks.now) sought.stop sought.closing (paired specified.now bits.now) }
{
    let slices = specified.len();
    if spaces.len() / SPACE_ENTRIES < slices {
        return window_lowest::found_anew(sought, masks, table, stops, specified, bits);
    }
    let place = (slices - 1) * SPACE_ENTRIES;
    let lowest = spaces[place];
    let free = spaces[place + 1] as usize;
    let space = Space { lowest, free };
    let vectors = window_spaces::load(spaces, place, free);
    window_lowest::lowest_covering(
        sought,
        masks,
        table,
        stops,
        specified,
        bits,
        Some(space),
        vectors,
    )
}

// The longest of the lengths up to one that some state covers, and its seed, or none.
// An inner function: its callers show that the part is well-formed, that the tables are those of the register, the chains and the stop slice, and that the spaces are written up to the length.
pub fn descend(
    sought: Sought,
    masks: &[u64],
    table: &[u64],
    stops: &[u64],
    specified: &[u64],
    bits: &[u64],
    spaces: &[u64],
    most: usize,
) -> Option<Window>
    requires ready { TablesFor sought masks.now table.now stops.now (suc (length specified.now)) }
    requires slices { bad_slices (length masks.now) specified.now bits.now ≡ false }
    requires grown { Grown (quiet_meet (length masks.now) table.now sought.pattern stops.now) (length masks.now) table.now (paired specified.now bits.now) sought.settings.cells spaces.now most }
    ensures { result ≡ reach_of (machine sought.settings masks.now) sought.stop sought.closing (paired specified.now bits.now) }
{
    let whole = specified.len();
    for slices in (1..=most).rev() {
        let closing = sought.closing || slices < whole;
        let part = Sought { closing, ..sought };
        let found = length_seed(
            part,
            masks,
            table,
            stops,
            &specified[..slices],
            &bits[..slices],
            spaces,
        );
        if let Some(seed) = found {
            return Some(Window { slices, seed });
        }
    }
    None
}
