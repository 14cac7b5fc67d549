// The encoding of a set with its stop slice (document 01, "Covering and cutting").
#![tactic(auto)]

ghost use Rattle.std.specs.Prelude.{◌≡◌, Ok};
ghost use Rattle.machine_settings.specs.Machine.{none_inverted, machine};
ghost use Rattle.machine_slices.specs.Slices.{paired};
ghost use Rattle.refusal_order.specs.Order.{judged};
ghost use Rattle.refusal_checks.specs.Calls.{set_faults};
ghost use Rattle.theory_covering.specs.Rules.{rules};
ghost use Rattle.encoder_meaning.specs.Encoding.{encoding, encode_set};
ghost use Rattle.encoder_meaning.specs.Meaning.{SetMeaning};

use encoder_settling::Gathered;
use machine_settings::Settings;
use machine_slices::TestSlice;
use refusal_causes::Cause;
use window_tables::Sought;

// The encoding of a well-formed set, where no chain is inverted. Each window is searched once; its seed waits in an array of its own until the answer is known.
fn encode_upright(
    settings: Settings,
    masks: &[u64],
    stop: TestSlice,
    specified: &[u64],
    bits: &[u64],
    out: &mut [u64],
) -> Result<usize, Cause>
    requires { (judged (set_faults settings masks.now stop specified.now bits.now) ≡ Ok tt) × (settings.invert ≡ none_inverted) }
    ensures answer { result ≡ (encoding (machine settings masks.now) (rules settings stop) (paired specified.now bits.now) out.old).answer }
    ensures buffer { out.new ≡ (encoding (machine settings masks.now) (rules settings stop) (paired specified.now bits.now) out.old).buffer }
{
    let mut table = [0u64; window_tables::MOST_ENTRIES];
    let mut stops = [0u64; window_tables::MOST_ENTRIES];
    let mut seeds = [0u64; refusal_lengths::MOST_SLICES];
    let taps = settings.taps;
    let rows = settings.limit.min(specified.len()) + 1;
    search_table::fill(taps, masks, rows, &mut table);
    let pattern = window_tables::fill_stops(taps, masks, stop, rows, &mut stops);
    let sought = Sought {
        settings,
        stop,
        pattern,
        closing: false,
    };
    let none = Gathered { place: 0, count: 0 };
    let gathered = encoder_gathering::gather(
        sought, masks, &table, &stops, specified, bits, none, &mut seeds,
    );
    encoder_settling::settle(specified.len(), gathered, &seeds, out)
}

// The encoding of a well-formed set: what it asks for is flipped at the inverted chains, once.
// An inner function: its callers show that the set is well-formed.
pub fn encode(
    settings: Settings,
    masks: &[u64],
    stop: TestSlice,
    specified: &[u64],
    bits: &[u64],
    out: &mut [u64],
) -> Result<usize, Cause>
    requires { judged (set_faults settings masks.now stop specified.now bits.now) ≡ Ok tt }
    ensures answer { result ≡ (encoding (machine settings masks.now) (rules settings stop) (paired specified.now bits.now) out.old).answer }
    ensures buffer { out.new ≡ (encoding (machine settings masks.now) (rules settings stop) (paired specified.now bits.now) out.old).buffer }
{
    let mut flipped = [0u64; refusal_lengths::MOST_SLICES];
    let invert = settings.invert;
    machine_inversion::flip_bits(invert, specified, bits, &mut flipped);
    let upright = machine_inversion::upright(settings);
    let shown = machine_inversion::flip(invert, stop);
    encode_upright(
        upright,
        masks,
        shown,
        specified,
        &flipped[..bits.len()],
        out,
    )
}

// The encoding of a set with its stop slice: how many seeds were written into the buffer, or the first of causes 1 to 5 that holds, then 8, then 9.
pub fn encode_set(
    settings: Settings,
    masks: &[u64],
    stop: TestSlice,
    specified: &[u64],
    bits: &[u64],
    out: &mut [u64],
) -> Result<usize, Cause>
    ensures answer { result ≡ (encode_set settings masks.now stop specified.now bits.now out.old).answer }
    ensures buffer { out.new ≡ (encode_set settings masks.now stop specified.now bits.now out.old).buffer }
    ensures meaning { SetMeaning settings masks.now stop specified.now bits.now out.old (record { answer = result; buffer = out.new }) }
{
    refusal_checks::check_set(settings, masks, stop, specified, bits)?;
    encode(settings, masks, stop, specified, bits, out)
}
