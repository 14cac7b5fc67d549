// What a search is told besides the slices: what is asked of the seed, and the tables of a call: the masks of all chains and of the stop's chains pulled back, row by row, and the stop slice without its unspecified positions.
#![tactic(auto)]

ghost use Rattle.std.specs.Prelude.{◌++◌, ◌≡◌, ◌*◌, ◌≤◌, drop, length};
ghost use Rattle.search_table.specs.Rows.{rows_of};
ghost use Rattle.search_table.specs.Chosen.{chosen as chosen_of};
ghost use Rattle.window_tables.specs.Tables.{pattern_of};

use machine_settings::Settings;
use machine_slices::TestSlice;
use search_rows::Pattern;

// The most entries of a table: rows 0 to 256 of 64 chains.
pub const MOST_ENTRIES: usize = 16448;

// What is asked of the seed of a window: under which settings and stop slice it covers it, the stop slice without its unspecified positions, and whether the slice after the window must show the stop.
#[derive(Clone, Copy)]
pub struct Sought {
    pub settings: Settings,
    pub stop: TestSlice,
    pub pattern: Pattern,
    pub closing: bool,
}

// The table of the stop's chains, and the stop slice without its unspecified positions; every other entry stays as it was.
// An inner function: its callers show that the buffer has an entry for each.
pub fn fill_stops(
    taps: u64,
    masks: &[u64],
    stop: TestSlice,
    rows: usize,
    stops: &mut [u64],
) -> Pattern
    requires { (length masks.now ≤ 64) × (rows * length masks.now ≤ length stops.old) }
    ensures answer { result ≡ pattern_of stop masks.now }
    ensures buffer { stops.new ≡ rows_of taps rows (chosen_of stop.specified masks.now) ++ drop (rows * length (chosen_of stop.specified masks.now)) stops.old }
{
    let mut chosen = [0u64; 64];
    let columns = search_table::choose(stop.specified, masks, &mut chosen);
    search_table::fill(taps, &chosen[..columns], rows, stops);
    let bits = search_table::pack(stop.specified, stop.bits, masks.len());
    Pattern { columns, bits }
}
