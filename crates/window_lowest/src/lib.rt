// The lowest state that covers a window, from the space of the states that its bits allow (document 01, "Covering and cutting").
#![tactic(auto)]

ghost use Rattle.std.specs.Prelude.{false, ◌≡◌, suc, length};
ghost use Rattle.machine_settings.specs.Machine.{machine};
ghost use Rattle.machine_slices.specs.Slices.{bad_slices, paired};
ghost use Rattle.theory_covering.specs.Covering.{seed_of};
ghost use Rattle.window_tables.specs.Tables.{TablesFor};
ghost use Rattle.window_rows.specs.Meeting.{all_meet};
ghost use Rattle.window_rows.specs.Narrowing.{all_states, Narrowed, units_of};

use search_space::Space;
use window_tables::Sought;

// The lowest state that covers a window, from the states that its bits allow: the lowest of those that close it and do not show the stop before.
// An inner function: its callers show that the slices are well-formed, that the tables are those of the register, the chains and the stop slice, and that the space is that of the states that meet the slices, or absent where none does.
pub fn lowest_covering(
    sought: Sought,
    masks: &[u64],
    table: &[u64],
    stops: &[u64],
    specified: &[u64],
    bits: &[u64],
    space: Option<Space>,
    vectors: [u64; 64],
) -> Option<u64>
    requires ready { TablesFor sought masks.now table.now stops.now (suc (length specified.now)) }
    requires slices { bad_slices (length masks.now) specified.now bits.now ≡ false }
    requires met { Narrowed (all_meet (length masks.now) table.now 0 (paired specified.now bits.now)) (all_states sought.settings.cells) (units_of sought.settings.cells) space vectors }
    ensures { result ≡ seed_of (machine sought.settings masks.now) sought.stop sought.closing (paired specified.now bits.now) }
{
    let mut kept = vectors;
    let chains = masks.len();
    let slices = specified.len();
    let allowed = window_fitting::close(
        &mut kept,
        space,
        table,
        chains,
        sought.stop,
        sought.closing,
        slices,
    );
    let forced = window_forced::force(sought.pattern, stops, slices, &mut kept, allowed)?;
    let Space { lowest, free } = forced;
    search_lowest::lowest_clear(sought.pattern, stops, slices, lowest, kept, free)
}

// The lowest state that covers a window, its bits entered anew.
// An inner function: its callers show that the slices are well-formed and that the tables are those of the register, the chains and the stop slice.
pub fn found_anew(
    sought: Sought,
    masks: &[u64],
    table: &[u64],
    stops: &[u64],
    specified: &[u64],
    bits: &[u64],
) -> Option<u64>
    requires tables_for { TablesFor sought masks.now table.now stops.now (suc (length specified.now)) }
    requires bits_value { bad_slices (length masks.now) specified.now bits.now ≡ false }
    ensures { result ≡ seed_of (machine sought.settings masks.now) sought.stop sought.closing (paired specified.now bits.now) }
{
    let mut vectors = search_space::units();
    let all = Space {
        lowest: 0,
        free: sought.settings.cells,
    };
    let met = window_fitting::fit(&mut vectors, Some(all), table, masks.len(), specified, bits);
    lowest_covering(sought, masks, table, stops, specified, bits, met, vectors)
}
