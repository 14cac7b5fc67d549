// From the entries of a sheet to the bytes of its seed list (document 01, "Sheet and seed list").
#![tactic(auto)]

ghost use Rattle.std.specs.Prelude.{◌≡◌, ◌≤◌, length};
ghost use Rattle.text_entries.specs.Flat.{entries_in};
ghost use Rattle.text_entries.specs.Said.{Few};
ghost use Rattle.text_write_bytes.specs.Stored.{Stored};
ghost use Rattle.text_encode.specs.Sheet.{head_of, reply_under, sheet_reply};
ghost use Rattle.text_replies.specs.Calls.{called};

use text_entries::Part;
use text_keys::Key;
use text_replies::{TextRefused, TextWritten};

// Writes the lines that the list of a sheet repeats.
fn write_head(entries: &[u64], head: &mut [u8]) -> usize
    requires { Few (entries_in entries.now) }
    ensures { Stored head.old 0 (head_of (entries_in entries.now)) head.new result }
{
    let mut masks = [0u64; machine_chains::MOST_CHAINS];
    let mut inverts = [0u64; 1];
    let mut windows = [0u64; 1];
    let chains = text_entries::numbers(entries, Key::Chain, Part::First, &mut masks);
    let inverted = text_entries::numbers(entries, Key::Invert, Part::First, &mut inverts);
    let limits = text_entries::numbers(entries, Key::Window, Part::First, &mut windows);
    text_write_head::put_head(
        head,
        0,
        text_entries::settings(entries),
        &masks[..chains],
        &inverts[..inverted],
        &windows[..limits],
    )
}

// Encodes what the entries of a sheet say, under the lines that its list repeats.
fn encode_under(head: &[u8], entries: &[u64], out: &mut [u8]) -> Result<TextWritten, TextRefused>
    requires { (length head.now ≤ 65536) × Few (entries_in entries.now) }
    ensures answer { result ≡ (called (reply_under head.now (entries_in entries.now)) out.old).answer }
    ensures buffer { out.new ≡ (called (reply_under head.now (entries_in entries.now)) out.old).buffer }
{
    let mut masks = [0u64; machine_chains::MOST_CHAINS];
    let mut specified = [0u64; refusal_lengths::MOST_SLICES];
    let mut bits = [0u64; refusal_lengths::MOST_SLICES];
    let chains = text_entries::numbers(entries, Key::Chain, Part::First, &mut masks);
    let slices = text_entries::numbers(entries, Key::Slice, Part::First, &mut specified);
    text_entries::numbers(entries, Key::Slice, Part::Second, &mut bits);
    let depth = text_entries::number(entries, Key::Depth, Part::First, 0);
    text_encode_said::encode_said(
        head,
        text_entries::settings(entries),
        &masks[..chains],
        depth as usize,
        &specified[..slices],
        &bits[..slices],
        out,
    )
}

// Encodes what the entries of a sheet say.
// An inner function: its callers show that there are no more lines than a text can have accepted.
pub fn encode_entries(entries: &[u64], out: &mut [u8]) -> Result<TextWritten, TextRefused>
    requires { Few (entries_in entries.now) }
    ensures answer { result ≡ (called (sheet_reply (entries_in entries.now)) out.old).answer }
    ensures buffer { out.new ≡ (called (sheet_reply (entries_in entries.now)) out.old).buffer }
{
    let mut head = [0u8; text_write_head::MOST_HEAD];
    let size = write_head(entries, &mut head);
    encode_under(&head[..size], entries, out)
}
