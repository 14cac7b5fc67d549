// The library's face for C and Rust: entries without `requires`, each with its whole contract, passed on to the crate of its kind: `face_numbers`, `face_checks`, `face_expand`, `face_window`, `face_encode` or `face_texts`.
#![tactic(auto)]

ghost use Rattle.std.specs.Prelude.{◌≡◌};
ghost use Rattle.refusal_order.specs.Order.{judged};
ghost use Rattle.refusal_checks.specs.Calls.{window_faults, set_faults, cubes_faults, stop_faults, list_faults};
ghost use Rattle.stop_slice.specs.Entry.{stop_of};
ghost use Rattle.stop_slice.specs.Meaning.{FormedMeaning};
ghost use Rattle.expander_meaning.specs.Expanding.{expand_list};
ghost use Rattle.theory_covering.specs.Single.{window_seed, WindowMeaning};
ghost use Rattle.encoder_meaning.specs.Encoding.{encode_set};
ghost use Rattle.encoder_cubes.specs.Cubes.{encode_cubes};
ghost use Rattle.encoder_meaning.specs.Meaning.{SetMeaning};
ghost use Rattle.encoder_cubes.specs.Meaning.{CubesMeaning};
ghost use Rattle.text_order.specs.declared.Kind.TheVariants as kinds;
ghost use Rattle.text_calls.specs.Texts.{encode_call, expand_call};
ghost use Rattle.text_meaning.specs.Calls.{TextMeaning};
ghost use Rattle.face_values.specs.Values.{settings_of, test_slice_of};
ghost use Rattle.face_numbers.specs.States.{step_call, slice_call};
ghost use Rattle.face_numbers.specs.Stop.{stop_answer_of};
ghost use Rattle.face_answers.specs.Answers.{answer_of, cubes_answer_of, seed_answer_of, text_answer_of};
ghost use Rattle.face_checks.specs.Verdicts.{number_of};

use face_answers::{Answer, CubesAnswer, SeedAnswer, TextAnswer};
use face_numbers::{SliceAnswer, StateAnswer, StopAnswer};
use face_values::Settings;
use text_order::Kind;

// One step of the register from a state: cause 1, then 10.
#[unsafe(no_mangle)]
pub extern "C" fn seeds_step(settings: Settings, state: u64) -> StateAnswer
    ensures { result ≡ step_call (settings_of settings) state }
{
    face_numbers::step(settings, state)
}

// The slice of a state: causes 1 and 2, then 10.
#[unsafe(no_mangle)]
pub extern "C" fn seeds_slice(settings: Settings, masks: &[u64], state: u64) -> SliceAnswer
    ensures { result ≡ slice_call (settings_of settings) masks.now state }
{
    face_numbers::slice(settings, masks, state)
}

// The number of the first of causes 1 to 5 that refuses a window, or 0.
#[unsafe(no_mangle)]
pub extern "C" fn seeds_check_window(
    settings: Settings,
    masks: &[u64],
    stop_specified: u64,
    stop_bits: u64,
    specified: &[u64],
    bits: &[u64],
) -> usize
    ensures { result ≡ number_of (judged (window_faults (settings_of settings) masks.now (test_slice_of stop_specified stop_bits) specified.now bits.now)) }
{
    face_checks::check_window(settings, masks, stop_specified, stop_bits, specified, bits)
}

// The number of the first of causes 1 to 5 that refuses a set with its stop slice, or 0.
#[unsafe(no_mangle)]
pub extern "C" fn seeds_check_set(
    settings: Settings,
    masks: &[u64],
    stop_specified: u64,
    stop_bits: u64,
    specified: &[u64],
    bits: &[u64],
) -> usize
    ensures { result ≡ number_of (judged (set_faults (settings_of settings) masks.now (test_slice_of stop_specified stop_bits) specified.now bits.now)) }
{
    face_checks::check_set(settings, masks, stop_specified, stop_bits, specified, bits)
}

// The number of the first of causes 1 to 4 that refuses a set that comes as cubes, or 0.
#[unsafe(no_mangle)]
pub extern "C" fn seeds_check_cubes(
    settings: Settings,
    masks: &[u64],
    depth: usize,
    specified: &[u64],
    bits: &[u64],
) -> usize
    ensures { result ≡ number_of (judged (cubes_faults (settings_of settings) masks.now depth specified.now bits.now)) }
{
    face_checks::check_cubes(settings, masks, depth, specified, bits)
}

// The number of the first of causes 2 to 4 that refuses a set whose stop slice is asked for, or 0.
#[unsafe(no_mangle)]
pub extern "C" fn seeds_check_stop(chains: usize, specified: &[u64], bits: &[u64]) -> usize
    ensures { result ≡ number_of (judged (stop_faults chains specified.now bits.now)) }
{
    face_checks::check_stop(chains, specified, bits)
}

// The number of the first of causes 1, 2, 3 and 5 that refuses a seed list before its seeds are run, or 0.
#[unsafe(no_mangle)]
pub extern "C" fn seeds_check_list(
    settings: Settings,
    masks: &[u64],
    stop_specified: u64,
    stop_bits: u64,
    slices: usize,
    seeds: usize,
) -> usize
    ensures { result ≡ number_of (judged (list_faults (settings_of settings) masks.now (test_slice_of stop_specified stop_bits) slices seeds)) }
{
    face_checks::check_list(settings, masks, stop_specified, stop_bits, slices, seeds)
}

// The stop slice of a set: causes 2, 3, 4, then 6.
#[unsafe(no_mangle)]
pub extern "C" fn seeds_stop(chains: usize, specified: &[u64], bits: &[u64]) -> StopAnswer
    ensures answer { result ≡ stop_answer_of (stop_of chains specified.now bits.now) }
    ensures meaning { FormedMeaning chains specified.now bits.now (stop_of chains specified.now bits.now) }
{
    face_numbers::stop_slice(chains, specified, bits)
}

// The slices of a seed list, written into the buffer: causes 1, 2, 3, 5, then 10, 11, 12 of the first refused seed, then 14, then 9.
#[unsafe(no_mangle)]
pub extern "C" fn seeds_expand(
    settings: Settings,
    masks: &[u64],
    stop_specified: u64,
    stop_bits: u64,
    slices: usize,
    seeds: &[u64],
    out: &mut [u64],
) -> Answer
    ensures answer { result ≡ answer_of (expand_list (settings_of settings) masks.now (test_slice_of stop_specified stop_bits) slices seeds.now out.old).answer }
    ensures buffer { out.new ≡ (expand_list (settings_of settings) masks.now (test_slice_of stop_specified stop_bits) slices seeds.now out.old).buffer }
{
    face_expand::expand(
        settings,
        masks,
        stop_specified,
        stop_bits,
        slices,
        seeds,
        out,
    )
}

// The seed of a window: causes 1 to 5, then 7.
#[unsafe(no_mangle)]
pub extern "C" fn seeds_window(
    settings: Settings,
    masks: &[u64],
    stop_specified: u64,
    stop_bits: u64,
    specified: &[u64],
    bits: &[u64],
) -> SeedAnswer
    ensures answer { result ≡ seed_answer_of (window_seed (settings_of settings) masks.now (test_slice_of stop_specified stop_bits) specified.now bits.now) }
    ensures meaning { WindowMeaning (settings_of settings) masks.now (test_slice_of stop_specified stop_bits) specified.now bits.now (window_seed (settings_of settings) masks.now (test_slice_of stop_specified stop_bits) specified.now bits.now) }
{
    face_window::window_seed(settings, masks, stop_specified, stop_bits, specified, bits)
}

// The seeds of a set with its stop slice, written into the buffer: causes 1 to 5, then 8, then 9.
#[unsafe(no_mangle)]
pub extern "C" fn seeds_encode_set(
    settings: Settings,
    masks: &[u64],
    stop_specified: u64,
    stop_bits: u64,
    specified: &[u64],
    bits: &[u64],
    out: &mut [u64],
) -> Answer
    ensures answer { result ≡ answer_of (encode_set (settings_of settings) masks.now (test_slice_of stop_specified stop_bits) specified.now bits.now out.old).answer }
    ensures buffer { out.new ≡ (encode_set (settings_of settings) masks.now (test_slice_of stop_specified stop_bits) specified.now bits.now out.old).buffer }
    ensures meaning { SetMeaning (settings_of settings) masks.now (test_slice_of stop_specified stop_bits) specified.now bits.now out.old (encode_set (settings_of settings) masks.now (test_slice_of stop_specified stop_bits) specified.now bits.now out.old) }
{
    face_encode::encode_set(
        settings,
        masks,
        stop_specified,
        stop_bits,
        specified,
        bits,
        out,
    )
}

// The stop slice and the seeds of cubes, written into the buffer: causes 1 to 4, then 6, then 8, then 9.
#[unsafe(no_mangle)]
pub extern "C" fn seeds_encode_cubes(
    settings: Settings,
    masks: &[u64],
    depth: usize,
    specified: &[u64],
    bits: &[u64],
    out: &mut [u64],
) -> CubesAnswer
    ensures answer { result ≡ cubes_answer_of (encode_cubes (settings_of settings) masks.now depth specified.now bits.now out.old).answer }
    ensures buffer { out.new ≡ (encode_cubes (settings_of settings) masks.now depth specified.now bits.now out.old).buffer }
    ensures meaning { CubesMeaning (settings_of settings) masks.now depth specified.now bits.now out.old (encode_cubes (settings_of settings) masks.now depth specified.now bits.now out.old) }
{
    face_encode::encode_cubes(settings, masks, depth, specified, bits, out)
}

// The seed list of a sheet, written into the buffer as text: the first refused line, then the checks over the whole, then 9 with the bytes needed and the number of seeds.
#[unsafe(no_mangle)]
pub extern "C" fn seeds_encode_text(sheet: &[u8], out: &mut [u8]) -> TextAnswer
    ensures answer { result ≡ text_answer_of (encode_call sheet.now out.old).answer }
    ensures buffer { out.new ≡ (encode_call sheet.now out.old).buffer }
    ensures meaning { TextMeaning kinds.Sheet sheet.now out.old (encode_call sheet.now out.old) }
{
    face_texts::answer_text(Kind::Sheet, sheet, out)
}

// The slices of a seed list, written into the buffer as text: refused in the same order.
#[unsafe(no_mangle)]
pub extern "C" fn seeds_expand_text(list: &[u8], out: &mut [u8]) -> TextAnswer
    ensures answer { result ≡ text_answer_of (expand_call list.now out.old).answer }
    ensures buffer { out.new ≡ (expand_call list.now out.old).buffer }
    ensures meaning { TextMeaning kinds.SeedList list.now out.old (expand_call list.now out.old) }
{
    face_texts::answer_text(Kind::SeedList, list, out)
}
