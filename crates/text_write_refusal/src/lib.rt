// Refusals that are written into a lent buffer (document 01, "Sheet and seed list").
// An inner function writes from a place on, as far as the buffer goes, and answers the place after its text (`text_write_bytes`).
#![tactic(auto)]

ghost use Rattle.std.specs.Prelude.{◌≡◌, ◌+◌, ◌<◌, ◌^◌, length};
ghost use Rattle.refusal_causes.specs.Outcome.{fill};
ghost use Rattle.text_write_bytes.specs.Stored.{Stored};
ghost use Rattle.text_write_refusal.specs.Refused.{refused_text};

use refusal_causes::{Cause, Refusal};

// Writes a refusal.
fn put_refusal(out: &mut [u8], at: usize, refusal: Refusal) -> usize
    requires { at + length (refused_text refusal) < 2 ^ 64 }
    ensures { Stored out.old at (refused_text refusal) out.new result }
{
    let a = text_write_numbers::put_number_line(out, at, 10, b"refused=", refusal.number as u64);
    text_write_numbers::put_number_line(out, a, 10, b"at=", refusal.value as u64)
}

// The refusal in a lent buffer, or cause 9 with the bytes needed.
pub fn write_refusal(out: &mut [u8], refusal: Refusal) -> Result<usize, Cause>
    ensures answer { result ≡ (fill (refused_text refusal) out.old).answer }
    ensures buffer { out.new ≡ (fill (refused_text refusal) out.old).buffer }
{
    text_write_bytes::write(out, |out| put_refusal(out, 0, refusal))
}
