// From the entries of a seed list to the bytes of its slices (document 01, "Sheet and seed list").
#![tactic(auto)]

ghost use Rattle.std.specs.Prelude.{◌≡◌};
ghost use Rattle.text_entries.specs.Flat.{entries_in};
ghost use Rattle.text_entries.specs.Said.{Few};
ghost use Rattle.text_expand.specs.List.{seed_list_reply};
ghost use Rattle.text_replies.specs.Calls.{called};

use machine_slices::TestSlice;
use text_entries::Part;
use text_keys::Key;
use text_replies::{TextRefused, TextWritten};

// Expands what the entries of a seed list say.
// An inner function: its callers show that there are no more lines than a text can have accepted.
pub fn expand_entries(entries: &[u64], out: &mut [u8]) -> Result<TextWritten, TextRefused>
    requires { Few (entries_in entries.now) }
    ensures answer { result ≡ (called (seed_list_reply (entries_in entries.now)) out.old).answer }
    ensures buffer { out.new ≡ (called (seed_list_reply (entries_in entries.now)) out.old).buffer }
{
    let mut masks = [0u64; machine_chains::MOST_CHAINS];
    let mut seeds = [0u64; refusal_lengths::MOST_SLICES];
    let chains = text_entries::numbers(entries, Key::Chain, Part::First, &mut masks);
    let count = text_entries::numbers(entries, Key::Seed, Part::First, &mut seeds);
    let specified = text_entries::number(entries, Key::Stop, Part::First, 0);
    let bits = text_entries::number(entries, Key::Stop, Part::Second, 0);
    let slices = text_entries::number(entries, Key::Slices, Part::First, 0);
    text_expand_said::expand_said(
        text_entries::settings(entries),
        &masks[..chains],
        TestSlice { specified, bits },
        slices as usize,
        &seeds[..count],
        out,
    )
}
