// The entry for expanding: the slices of a seed list.
#![tactic(auto)]

ghost use Rattle.std.specs.Prelude.{◌≡◌};
ghost use Rattle.expander_meaning.specs.Expanding.{expand_list};
ghost use Rattle.face_values.specs.Values.{settings_of, test_slice_of};
ghost use Rattle.face_answers.specs.Answers.{answer_of};

use face_answers::Answer;
use face_values::Settings;

// The slices of a seed list, written into the buffer: causes 1, 2, 3, 5, then 10, 11, 12 of the first refused seed, then 14, then 9.
pub fn expand(
    settings: Settings,
    masks: &[u64],
    stop_specified: u64,
    stop_bits: u64,
    slices: usize,
    seeds: &[u64],
    out: &mut [u64],
) -> Answer
    ensures answer { result ≡ answer_of (expand_list (settings_of settings) masks.now (test_slice_of stop_specified stop_bits) slices seeds.now out.old).answer }
    ensures buffer { out.new ≡ (expand_list (settings_of settings) masks.now (test_slice_of stop_specified stop_bits) slices seeds.now out.old).buffer }
{
    let stop = face_values::test_slice_of(stop_specified, stop_bits);
    let given = machine_settings::Settings::from(settings);
    let written = expander_list::expand_list(given, masks, stop, slices, seeds, out);
    face_answers::answer_of(written)
}
