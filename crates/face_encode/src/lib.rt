// The entries for encoding: the seeds of a set and of cubes.
#![tactic(auto)]

ghost use Rattle.std.specs.Prelude.{◌≡◌};
ghost use Rattle.encoder_meaning.specs.Encoding.{encode_set};
ghost use Rattle.encoder_cubes.specs.Cubes.{encode_cubes};
ghost use Rattle.encoder_meaning.specs.Meaning.{SetMeaning};
ghost use Rattle.encoder_cubes.specs.Meaning.{CubesMeaning};
ghost use Rattle.face_values.specs.Values.{settings_of, test_slice_of};
ghost use Rattle.face_answers.specs.Answers.{answer_of, cubes_answer_of};

use face_answers::{Answer, CubesAnswer};
use face_values::Settings;

// The seeds of a set with its stop slice, written into the buffer: causes 1 to 5, then 8, then 9.
pub fn encode_set(
    settings: Settings,
    masks: &[u64],
    stop_specified: u64,
    stop_bits: u64,
    specified: &[u64],
    bits: &[u64],
    out: &mut [u64],
) -> Answer
    ensures answer { result ≡ answer_of (encode_set (settings_of settings) masks.now (test_slice_of stop_specified stop_bits) specified.now bits.now out.old).answer }
    ensures buffer { out.new ≡ (encode_set (settings_of settings) masks.now (test_slice_of stop_specified stop_bits) specified.now bits.now out.old).buffer }
    ensures meaning { SetMeaning (settings_of settings) masks.now (test_slice_of stop_specified stop_bits) specified.now bits.now out.old (encode_set (settings_of settings) masks.now (test_slice_of stop_specified stop_bits) specified.now bits.now out.old) }
{
    let stop = face_values::test_slice_of(stop_specified, stop_bits);
    let given = machine_settings::Settings::from(settings);
    let written = encoder_sets::encode_set(given, masks, stop, specified, bits, out);
    face_answers::answer_of(written)
}

// The stop slice and the seeds of cubes, written into the buffer: causes 1 to 4, then 6, then 8, then 9.
pub fn encode_cubes(
    settings: Settings,
    masks: &[u64],
    depth: usize,
    specified: &[u64],
    bits: &[u64],
    out: &mut [u64],
) -> CubesAnswer
    ensures answer { result ≡ cubes_answer_of (encode_cubes (settings_of settings) masks.now depth specified.now bits.now out.old).answer }
    ensures buffer { out.new ≡ (encode_cubes (settings_of settings) masks.now depth specified.now bits.now out.old).buffer }
    ensures meaning { CubesMeaning (settings_of settings) masks.now depth specified.now bits.now out.old (encode_cubes (settings_of settings) masks.now depth specified.now bits.now out.old) }
{
    let given = machine_settings::Settings::from(settings);
    let encoded = encoder_cubes::encode_cubes(given, masks, depth, specified, bits, out);
    face_answers::cubes_answer_of(encoded)
}
