// The checks by number: the first of causes 1 to 5 that refuses what is handed in.
#![tactic(auto)]

ghost use Rattle.std.specs.Prelude.{◌≡◌};
ghost use Rattle.refusal_order.specs.Order.{judged};
ghost use Rattle.refusal_checks.specs.Calls.{window_faults, set_faults, cubes_faults, stop_faults, list_faults};
ghost use Rattle.face_values.specs.Values.{settings_of, test_slice_of};
ghost use Rattle.face_checks.specs.Verdicts.{number_of};

use face_values::Settings;
use refusal_causes::{Cause, Refusal};

// The number of a verdict: 0 where nothing is refused.
fn number(verdict: Result<(), Cause>) -> usize
    ensures { result ≡ number_of verdict }
{
    match verdict {
        Ok(()) => 0,
        Err(cause) => {
            let refusal = Refusal::from(cause);
            refusal.number
        }
    }
}

// The number of the first of causes 1 to 5 that refuses a window, or 0.
pub fn check_window(
    settings: Settings,
    masks: &[u64],
    stop_specified: u64,
    stop_bits: u64,
    specified: &[u64],
    bits: &[u64],
) -> usize
    ensures { result ≡ number_of (judged (window_faults (settings_of settings) masks.now (test_slice_of stop_specified stop_bits) specified.now bits.now)) }
{
    let stop = face_values::test_slice_of(stop_specified, stop_bits);
    let given = machine_settings::Settings::from(settings);
    number(refusal_checks::check_window(given, masks, stop, specified, bits))
}

// The number of the first of causes 1 to 5 that refuses a set with its stop slice, or 0.
pub fn check_set(
    settings: Settings,
    masks: &[u64],
    stop_specified: u64,
    stop_bits: u64,
    specified: &[u64],
    bits: &[u64],
) -> usize
    ensures { result ≡ number_of (judged (set_faults (settings_of settings) masks.now (test_slice_of stop_specified stop_bits) specified.now bits.now)) }
{
    let stop = face_values::test_slice_of(stop_specified, stop_bits);
    let given = machine_settings::Settings::from(settings);
    number(refusal_checks::check_set(given, masks, stop, specified, bits))
}

// The number of the first of causes 1 to 4 that refuses a set that comes as cubes, or 0.
pub fn check_cubes(
    settings: Settings,
    masks: &[u64],
    depth: usize,
    specified: &[u64],
    bits: &[u64],
) -> usize
    ensures { result ≡ number_of (judged (cubes_faults (settings_of settings) masks.now depth specified.now bits.now)) }
{
    let given = machine_settings::Settings::from(settings);
    number(refusal_checks::check_cubes(given, masks, depth, specified, bits))
}

// The number of the first of causes 2 to 4 that refuses a set whose stop slice is asked for, or 0.
pub fn check_stop(chains: usize, specified: &[u64], bits: &[u64]) -> usize
    ensures { result ≡ number_of (judged (stop_faults chains specified.now bits.now)) }
{
    number(refusal_checks::check_stop(chains, specified, bits))
}

// The number of the first of causes 1, 2, 3 and 5 that refuses a seed list before its seeds are run, or 0.
pub fn check_list(
    settings: Settings,
    masks: &[u64],
    stop_specified: u64,
    stop_bits: u64,
    slices: usize,
    seeds: usize,
) -> usize
    ensures { result ≡ number_of (judged (list_faults (settings_of settings) masks.now (test_slice_of stop_specified stop_bits) slices seeds)) }
{
    let stop = face_values::test_slice_of(stop_specified, stop_bits);
    let given = machine_settings::Settings::from(settings);
    number(refusal_checks::check_list(given, masks, stop, slices, seeds))
}
