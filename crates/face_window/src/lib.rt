// The entry for a window: its seed.
#![tactic(auto)]

ghost use Rattle.std.specs.Prelude.{◌≡◌};
ghost use Rattle.theory_covering.specs.Single.{window_seed, WindowMeaning};
ghost use Rattle.face_values.specs.Values.{settings_of, test_slice_of};
ghost use Rattle.face_answers.specs.Answers.{seed_answer_of};

use face_answers::SeedAnswer;
use face_values::Settings;

// The seed of a window: causes 1 to 5, then 7.
pub fn window_seed(
    settings: Settings,
    masks: &[u64],
    stop_specified: u64,
    stop_bits: u64,
    specified: &[u64],
    bits: &[u64],
) -> SeedAnswer
    ensures answer { result ≡ seed_answer_of (window_seed (settings_of settings) masks.now (test_slice_of stop_specified stop_bits) specified.now bits.now) }
    ensures meaning { WindowMeaning (settings_of settings) masks.now (test_slice_of stop_specified stop_bits) specified.now bits.now (window_seed (settings_of settings) masks.now (test_slice_of stop_specified stop_bits) specified.now bits.now) }
{
    let stop = face_values::test_slice_of(stop_specified, stop_bits);
    let given = machine_settings::Settings::from(settings);
    let seed = window_single::window_seed(given, masks, stop, specified, bits);
    face_answers::seed_answer_of(seed)
}
