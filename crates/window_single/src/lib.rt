// The seed of a single window: the lowest state that covers it, or a refusal.
#![tactic(auto)]

ghost use Rattle.std.specs.Prelude.{true, ◌≡◌, Ok};
ghost use Rattle.machine_settings.specs.Machine.{none_inverted, machine};
ghost use Rattle.machine_slices.specs.Slices.{paired};
ghost use Rattle.refusal_order.specs.Order.{judged};
ghost use Rattle.refusal_checks.specs.Calls.{window_faults};
ghost use Rattle.theory_covering.specs.Covering.{seed_of};
ghost use Rattle.theory_covering.specs.Single.{window_seed, lowest_or7, WindowMeaning};

use machine_register::Register;
use machine_settings::Settings;
use machine_slices::TestSlice;
use refusal_causes::Cause;
use window_tables::{MOST_ENTRIES, Sought};

// The seed of a well-formed window, where no chain is inverted.
fn seed_upright(
    settings: Settings,
    masks: &[u64],
    stop: TestSlice,
    specified: &[u64],
    bits: &[u64],
) -> Result<u64, Cause>
    requires { (judged (window_faults settings masks.now stop specified.now bits.now) ≡ Ok tt) × (settings.invert ≡ none_inverted) }
    ensures { result ≡ lowest_or7 (seed_of (machine settings masks.now) stop true (paired specified.now bits.now)) }
{
    let mut table = [0u64; MOST_ENTRIES];
    let mut stops = [0u64; MOST_ENTRIES];
    let taps = settings.taps;
    let rows = specified.len() + 1;
    search_table::fill(taps, masks, rows, &mut table);
    let pattern = window_tables::fill_stops(taps, masks, stop, rows, &mut stops);
    let sought = Sought {
        settings,
        stop,
        pattern,
        closing: true,
    };
    window_lowest::found_anew(sought, masks, &table, &stops, specified, bits).ok_or(Cause::NoSeed)
}

// The seed of a well-formed window: what it asks for is flipped at the inverted chains, once.
fn seed_of(
    settings: Settings,
    masks: &[u64],
    stop: TestSlice,
    specified: &[u64],
    bits: &[u64],
) -> Result<u64, Cause>
    requires { judged (window_faults settings masks.now stop specified.now bits.now) ≡ Ok tt }
    ensures { result ≡ lowest_or7 (seed_of (machine settings masks.now) stop true (paired specified.now bits.now)) }
{
    let mut flipped = [0u64; Register::LONGEST_WINDOW];
    let invert = settings.invert;
    machine_inversion::flip_bits(invert, specified, bits, &mut flipped);
    let upright = machine_inversion::upright(settings);
    let shown = machine_inversion::flip(invert, stop);
    seed_upright(upright, masks, shown, specified, &flipped[..bits.len()])
}

// The seed of a window: the lowest state that covers it, or the first of causes 1 to 5 that holds, then 7.
pub fn window_seed(
    settings: Settings,
    masks: &[u64],
    stop: TestSlice,
    specified: &[u64],
    bits: &[u64],
) -> Result<u64, Cause>
    ensures answer { result ≡ window_seed settings masks.now stop specified.now bits.now }
    ensures meaning { WindowMeaning settings masks.now stop specified.now bits.now result }
{
    refusal_checks::check_window(settings, masks, stop, specified, bits)?;
    seed_of(settings, masks, stop, specified, bits)
}
