// From what a seed list says to the bytes of its slices (document 01, "Sheet and seed list").
#![tactic(auto)]

ghost use Rattle.std.specs.Prelude.{◌≡◌, ◌≤◌, length};
ghost use Rattle.text_expand_said.specs.Expanded.{slices_reply, expanded};
ghost use Rattle.text_replies.specs.Calls.{called};

use machine_settings::Settings;
use machine_slices::TestSlice;
use refusal_causes::Cause;
use text_replies::{TextRefused, TextWritten};

// Writes the slices of an expanding.
fn reply_slices(
    chains: usize,
    slices: &[u64],
    written: Result<usize, Cause>,
    out: &mut [u8],
) -> Result<TextWritten, TextRefused>
    requires { (chains ≤ 64) × (length slices.now ≤ 2048) }
    ensures answer { result ≡ (called (slices_reply chains slices.now written) out.old).answer }
    ensures buffer { out.new ≡ (called (slices_reply chains slices.now written) out.old).buffer }
{
    let n = written?;
    let count = n.min(slices.len());
    let lines = text_write_slices::write_slices(out, chains, &slices[..count]);
    text_replies::answered(n, lines)
}

// Expands what a seed list says.
// An inner function: its callers show that there are at most 64 masks.
pub fn expand_said(
    settings: Settings,
    masks: &[u64],
    stop: TestSlice,
    slices: usize,
    seeds: &[u64],
    out: &mut [u8],
) -> Result<TextWritten, TextRefused>
    requires { length masks.now ≤ 64 }
    ensures answer { result ≡ (called (expanded settings masks.now stop slices seeds.now) out.old).answer }
    ensures buffer { out.new ≡ (called (expanded settings masks.now stop slices seeds.now) out.old).buffer }
{
    let mut values = [0u64; refusal_lengths::MOST_SLICES];
    let written = expander_list::expand_list(settings, masks, stop, slices, seeds, &mut values);
    reply_slices(masks.len(), &values, written, out)
}
