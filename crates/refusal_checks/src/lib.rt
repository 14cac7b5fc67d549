// The checks behind causes 1 to 5 (document 01, "Refusal sheet"), for each kind of call.
#![tactic(auto)]

ghost use Rattle.std.specs.Prelude.{◌≡◌};
ghost use Rattle.refusal_order.specs.Order.{judged};
ghost use Rattle.refusal_checks.specs.Calls.{limited, call_faults, window_faults, set_faults, cubes_faults, list_faults, stop_faults};

use machine_settings::Settings;
use machine_slices::TestSlice;
use refusal_causes::Cause;
use refusal_order::Faults;

// Cause 3 of a call with settings: their limit, and the lengths of the call.
fn bad_lengths(settings: Settings, lengths: bool) -> bool
    ensures { result ≡ limited settings lengths }
{
    if refusal_lengths::bad_limit(settings.limit) {
        return true;
    }
    lengths
}

// The checks of a call with settings, once its own lengths, slices and stop slice are judged.
fn check_call(
    settings: Settings,
    masks: &[u64],
    lengths: bool,
    slices: bool,
    stop: bool,
) -> Result<(), Cause>
    ensures { result ≡ judged (call_faults settings masks.now lengths slices stop) }
{
    refusal_order::judge(Faults {
        register: machine_register::bad_register(settings.cells, settings.taps),
        chains: machine_settings::bad_chains(settings, masks),
        lengths: bad_lengths(settings, lengths),
        slices,
        stop,
    })
}

// The checks of a window with its stop slice.
pub fn check_window(
    settings: Settings,
    masks: &[u64],
    stop: TestSlice,
    specified: &[u64],
    bits: &[u64],
) -> Result<(), Cause>
    ensures { result ≡ judged (window_faults settings masks.now stop specified.now bits.now) }
{
    let chains = masks.len();
    check_call(
        settings,
        masks,
        refusal_lengths::bad_window(settings.limit, specified.len()),
        machine_slices::bad_slices(chains, specified, bits),
        machine_slices::bad_stop(chains, stop),
    )
}

// The checks of a set with its stop slice.
pub fn check_set(
    settings: Settings,
    masks: &[u64],
    stop: TestSlice,
    specified: &[u64],
    bits: &[u64],
) -> Result<(), Cause>
    ensures { result ≡ judged (set_faults settings masks.now stop specified.now bits.now) }
{
    let chains = masks.len();
    check_call(
        settings,
        masks,
        refusal_lengths::bad_set(specified.len()),
        machine_slices::bad_slices(chains, specified, bits),
        machine_slices::bad_stop(chains, stop),
    )
}

// The checks of a set that comes as cubes, without a stop slice.
pub fn check_cubes(
    settings: Settings,
    masks: &[u64],
    depth: usize,
    specified: &[u64],
    bits: &[u64],
) -> Result<(), Cause>
    ensures { result ≡ judged (cubes_faults settings masks.now depth specified.now bits.now) }
{
    check_call(
        settings,
        masks,
        refusal_lengths::bad_cubes(depth, specified.len()),
        machine_slices::bad_slices(masks.len(), specified, bits),
        false,
    )
}

// The checks of a set whose stop slice is asked for: only the number of its chains is handed in.
pub fn check_stop(chains: usize, specified: &[u64], bits: &[u64]) -> Result<(), Cause>
    ensures { result ≡ judged (stop_faults chains specified.now bits.now) }
{
    refusal_order::judge(Faults {
        register: false,
        chains: machine_chains::bad_count(chains),
        lengths: refusal_lengths::bad_set(specified.len()),
        slices: machine_slices::bad_slices(chains, specified, bits),
        stop: false,
    })
}

// The checks of a seed list before its seeds are run.
pub fn check_list(
    settings: Settings,
    masks: &[u64],
    stop: TestSlice,
    slices: usize,
    seeds: usize,
) -> Result<(), Cause>
    ensures { result ≡ judged (list_faults settings masks.now stop slices seeds) }
{
    check_call(
        settings,
        masks,
        refusal_lengths::bad_list(slices, seeds),
        false,
        machine_slices::bad_stop(masks.len(), stop),
    )
}
