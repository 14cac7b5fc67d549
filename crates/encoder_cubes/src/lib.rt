// The encoding of cubes (document 01, "Covering and cutting"): their stop slice, then as for a set.
#![tactic(auto)]

ghost use Rattle.std.specs.Prelude.{◌≡◌};
ghost use Rattle.encoder_cubes.specs.Cubes.{cubes_encoding, encode_cubes};
ghost use Rattle.encoder_cubes.specs.Formed.{CubesFormed};
ghost use Rattle.encoder_cubes.specs.Meaning.{CubesMeaning};

use encoder_meaning::Encoded;
use machine_settings::Settings;
use refusal_causes::Cause;

// The encoding of cubes that are well-formed: their stop slice, then as for a set.
fn encode_formed(
    settings: Settings,
    masks: &[u64],
    specified: &[u64],
    bits: &[u64],
    out: &mut [u64],
) -> Result<Encoded, Cause>
    requires { CubesFormed settings masks.now specified.now bits.now }
    ensures answer { result ≡ (cubes_encoding settings masks.now specified.now bits.now out.old).answer }
    ensures buffer { out.new ≡ (cubes_encoding settings masks.now specified.now bits.now out.old).buffer }
{
    let stop = stop_slice::stop_slice(masks.len(), specified, bits)?;
    let seeds = encoder_sets::encode(settings, masks, stop, specified, bits, out)?;
    Ok(Encoded { stop, seeds })
}

// The encoding of cubes of so many slices each: their stop slice and how many seeds were written into the buffer, or the first of causes 1 to 4 that holds, then 6, then 8, then 9.
pub fn encode_cubes(
    settings: Settings,
    masks: &[u64],
    depth: usize,
    specified: &[u64],
    bits: &[u64],
    out: &mut [u64],
) -> Result<Encoded, Cause>
    ensures answer { result ≡ (encode_cubes settings masks.now depth specified.now bits.now out.old).answer }
    ensures buffer { out.new ≡ (encode_cubes settings masks.now depth specified.now bits.now out.old).buffer }
    ensures meaning { CubesMeaning settings masks.now depth specified.now bits.now out.old (record { answer = result; buffer = out.new }) }
{
    refusal_checks::check_cubes(settings, masks, depth, specified, bits)?;
    encode_formed(settings, masks, specified, bits, out)
}
