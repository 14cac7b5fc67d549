// The windows of a segment of a set (document 01, "Covering and cutting"): from its first slice on, the longest window that some state covers, and its seed.
#![tactic(auto)]

ghost use Rattle.std.specs.Prelude.{Bool, false, ◌≡◌, suc, min, ◌≤◌, length};
ghost use Rattle.std.proofs.lemmas.List.Edits.{sets};
ghost use Rattle.machine_settings.specs.Machine.{machine};
ghost use Rattle.machine_slices.specs.declared.TestSlice.{TestSlice};
ghost use Rattle.machine_slices.specs.Slices.{bad_slices, paired};
ghost use Rattle.theory_covering.specs.Rules.{segment_rules};
ghost use Rattle.refusal_lengths.specs.Lengths.{most_limit};
ghost use Rattle.theory_covering.specs.Windows.{far as far_of};
ghost use Rattle.window_tables.specs.Tables.{TablesFor};
ghost use Rattle.encoder_gathering.specs.Gathering.{gathered, gathered_seeds};

use encoder_settling::Gathered;
use machine_settings::Settings;
use window_tables::Sought;

// How far a window from a start may go: up to the limit, and not beyond the segment.
fn far(settings: Settings, slices: usize, start: usize) -> usize
    requires { (settings.limit ≤ most_limit) × (start ≤ 2048) }
    ensures { (stop : TestSlice) (closing : Bool) → result ≡ far_of (segment_rules settings stop closing) slices start }
{
    slices.min(start + settings.limit)
}

// The seeds of a segment's windows, behind the earlier ones: each window is the longest from where the one before ends, until the end of the slices or a start from which none leads on.
// The segment begins where the earlier windows lead; a window that ends it closes with its stop where `sought` says so, any other always.
// An inner function: its callers show that the slices are well-formed, that the tables are those of the register, the chains and the stop slice, and that there is an entry for each seed.
pub fn gather(
    sought: Sought,
    masks: &[u64],
    table: &[u64],
    stops: &[u64],
    specified: &[u64],
    bits: &[u64],
    earlier: Gathered,
    seeds: &mut [u64],
) -> Gathered
    requires ready { TablesFor sought masks.now table.now stops.now (suc (min sought.settings.limit (length specified.now))) }
    requires slices { bad_slices (length masks.now) specified.now bits.now ≡ false }
    requires lengths { (sought.settings.limit ≤ most_limit) × (length specified.now ≤ 2048) × (length specified.now ≤ length seeds.old) }
    requires earlier { (earlier.count ≤ earlier.place) × (earlier.place ≤ length specified.now) }
    ensures answer { result ≡ gathered (machine sought.settings masks.now) (segment_rules sought.settings sought.stop sought.closing) (paired specified.now bits.now) earlier }
    ensures buffer { seeds.new ≡ sets seeds.old earlier.count (gathered_seeds (machine sought.settings masks.now) (segment_rules sought.settings sought.stop sought.closing) (paired specified.now bits.now) earlier.place) }
{
    let slices = specified.len();
    let mut place = earlier.place;
    let mut count = earlier.count;
    // Not a `for`: it moves by the length of the window that was found.
    while place < slices {
        let end = far(sought.settings, slices, place);
        let closing = sought.closing || end < slices;
        let part = Sought { closing, ..sought };
        let Some(longest) = window_longest::reach(
            part,
            masks,
            table,
            stops,
            &specified[place..end],
            &bits[place..end],
        ) else {
            return Gathered { place, count };
        };
        seeds[count] = longest.seed;
        count += 1;
        place += longest.slices;
    }
    Gathered { place, count }
}
