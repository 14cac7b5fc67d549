// The text call, by the kind of text (document 01, "Sheet and seed list"): from the bytes of a sheet to those of its seed list, and from the bytes of a seed list to those of its slices.
#![tactic(auto)]

ghost use Rattle.std.specs.Prelude.{◌≡◌};
ghost use Rattle.text_entries.specs.Flat.{entries_in};
ghost use Rattle.text_entries.specs.Said.{Few};
ghost use Rattle.text_replies.specs.Calls.{called};
ghost use Rattle.text_calls.specs.Texts.{reply_of, call_of};

use text_order::Kind;
use text_replies::{TextRefused, TextWritten};

// A number that is no key's rank.
const NO_KEY: u64 = text_keys::COUNT as u64;

// The numbers of all lines that a text can have, three a line.
const MOST_NUMBERS: usize = 6357;

// The answer to what the entries of a text say.
fn answer_entries(kind: Kind, entries: &[u64], out: &mut [u8]) -> Result<TextWritten, TextRefused>
    requires { Few (entries_in entries.now) }
    ensures answer { result ≡ (called (reply_of kind (entries_in entries.now)) out.old).answer }
    ensures buffer { out.new ≡ (called (reply_of kind (entries_in entries.now)) out.old).buffer }
{
    match kind {
        Kind::Sheet => text_encode::encode_entries(entries, out),
        Kind::SeedList => text_expand::expand_entries(entries, out),
    }
}

// Encodes a sheet or expands a seed list into a lent buffer: how many bytes were written and how many seeds or slices they say, or the refusal.
pub fn call(kind: Kind, text: &[u8], out: &mut [u8]) -> Result<TextWritten, TextRefused>
    ensures answer { result ≡ (call_of kind text.now out.old).answer }
    ensures buffer { out.new ≡ (call_of kind text.now out.old).buffer }
{
    let mut entries = [NO_KEY; MOST_NUMBERS];
    text_reading::scan(kind, text, &mut entries)?;
    answer_entries(kind, &entries, out)
}
