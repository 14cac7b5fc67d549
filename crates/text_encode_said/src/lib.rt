// From what a sheet says to the bytes of its seed list (document 01, "Sheet and seed list").
#![tactic(auto)]

ghost use Rattle.std.specs.Prelude.{◌≡◌, ◌≤◌, length};
ghost use Rattle.text_encode_said.specs.Encoded.{list_reply, encoded};
ghost use Rattle.text_replies.specs.Calls.{called};

use encoder_meaning::Encoded;
use machine_settings::Settings;
use refusal_causes::Cause;
use text_replies::{TextRefused, TextWritten};

// Writes the list of an encoding. The head is the sheet's lines before depth.
fn reply_list(
    head: &[u8],
    chains: usize,
    slices: usize,
    seeds: &[u64],
    encoded: Result<Encoded, Cause>,
    out: &mut [u8],
) -> Result<TextWritten, TextRefused>
    requires { (length head.now ≤ 65536) × (chains ≤ 64) × (length seeds.now ≤ 2048) }
    ensures answer { result ≡ (called (list_reply head.now chains slices seeds.now encoded) out.old).answer }
    ensures buffer { out.new ≡ (called (list_reply head.now chains slices seeds.now encoded) out.old).buffer }
{
    let list = encoded?;
    let count = list.seeds.min(seeds.len());
    let written = text_write_list::write_list(
        out,
        head,
        chains,
        list.stop,
        slices,
        &seeds[..count],
    );
    text_replies::answered(list.seeds, written)
}

// Encodes what a sheet says, with its lines before depth.
// An inner function: its callers show that these have at most 65,536 bytes, and that there are at most 64 masks.
pub fn encode_said(
    head: &[u8],
    settings: Settings,
    masks: &[u64],
    depth: usize,
    specified: &[u64],
    bits: &[u64],
    out: &mut [u8],
) -> Result<TextWritten, TextRefused>
    requires { (length head.now ≤ 65536) × (length masks.now ≤ 64) }
    ensures answer { result ≡ (called (encoded head.now settings masks.now depth specified.now bits.now) out.old).answer }
    ensures buffer { out.new ≡ (called (encoded head.now settings masks.now depth specified.now bits.now) out.old).buffer }
{
    let mut seeds = [0u64; refusal_lengths::MOST_SLICES];
    let encoded = encoder_cubes::encode_cubes(settings, masks, depth, specified, bits, &mut seeds);
    reply_list(head, masks.len(), specified.len(), &seeds, encoded, out)
}
