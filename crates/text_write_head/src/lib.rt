// The lines that a seed list repeats from its sheet, written into a lent buffer (document 01, "Sheet and seed list"; document 02, R-3 and R-4).
// It writes from a place on, as far as the buffer goes, and answers the place after its text (`text_write_bytes`).
#![tactic(auto)]

ghost use Rattle.std.specs.Prelude.{◌+◌, ◌<◌, ◌^◌, length};
ghost use Rattle.text_write_bytes.specs.Stored.{Stored};
ghost use Rattle.text_write_head.specs.Head.{chains_text, head_text};

use machine_settings::Settings;

// The most bytes of these lines: those of 64 chains with their invert line and their window line have fewer.
pub const MOST_HEAD: usize = 2048;

// Writes the lines of register and chains.
// An inner function: its callers show that the place after the text is a number of the machine.
fn put_chains(out: &mut [u8], at: usize, settings: Settings, masks: &[u64]) -> usize
    requires { at + length (chains_text settings masks.now) < 2 ^ 64 }
    ensures { Stored out.old at (chains_text settings masks.now) out.new result }
{
    let a = text_write_numbers::put_number_line(out, at, 10, b"cells=", settings.cells as u64);
    let b = text_write_numbers::put_number_line(out, a, 16, b"taps=", settings.taps);
    let c = text_write_numbers::put_number_line(out, b, 10, b"chains=", masks.len() as u64);
    text_write_numbers::put_number_lines(out, c, 16, b"chain=", masks)
}

// Writes the lines that a list repeats from its sheet. `inverts` has the number of the invert line, or none where the sheet has no such line, and `windows` that of the window line.
// An inner function: its callers show that the place after the text is a number of the machine.
pub fn put_head(
    out: &mut [u8],
    at: usize,
    settings: Settings,
    masks: &[u64],
    inverts: &[u64],
    windows: &[u64],
) -> usize
    requires { at + length (head_text settings masks.now inverts.now windows.now) < 2 ^ 64 }
    ensures { Stored out.old at (head_text settings masks.now inverts.now windows.now) out.new result }
{
    let a = put_chains(out, at, settings, masks);
    let b = text_write_numbers::put_number_lines(out, a, 16, b"invert=", inverts);
    text_write_numbers::put_number_lines(out, b, 10, b"window=", windows)
}
