// Bytes that are written into a lent buffer (document 01, "Sheet and seed list").
// A function writes from a place on, as far as the buffer goes, and answers the place after its text; so the same function first counts the bytes of a text and then writes it.
#![tactic(auto)]

ghost use Rattle.std.specs.Prelude.{◌≡◌, List, [], ◌∷◌, ℕ, ◌+◌, ◌<◌, ◌^◌, length};
ghost use Rattle.std.proofs.lemmas.List.Edits.{sets};
ghost use Rattle.refusal_causes.specs.Outcome.{fill};
ghost use Rattle.text_write_bytes.specs.Stored.{Stored, Puts};

use refusal_causes::Cause;

// Writes one byte, where there is space.
pub fn put_byte(out: &mut [u8], at: usize, b: u8)
    ensures { out.new ≡ sets out.old at (b ∷ []) }
{
    if at < out.len() {
        out[at] = b;
    }
}

// Writes bytes.
// An inner function: its callers show that the place after the text is a number of the machine.
pub fn put(out: &mut [u8], at: usize, part: &[u8]) -> usize
    requires { at + length part.now < 2 ^ 64 }
    ensures { Stored out.old at part.now out.new result }
{
    for (i, &b) in part.iter().enumerate() {
        put_byte(out, at + i, b);
    }
    at + part.len()
}

// A text in a lent buffer, or cause 9 with the bytes needed. What puts the text writes it from the front on, as far as the buffer goes.
// An inner function: its callers show that what puts the text may be called, and what it puts.
pub fn write<F: Fn(&mut [u8]) -> usize>(out: &mut [u8], put: F) -> Result<usize, Cause>
    requires { F.IsAlwaysCallable put }
    ensures answer { (text : List ℕ) → Puts (F.post put) text → result ≡ (fill text out.old).answer }
    ensures buffer { (text : List ℕ) → Puts (F.post put) text → out.new ≡ (fill text out.old).buffer }
{
    let mut none = [0u8; 1];
    let needed = put(&mut none);
    if out.len() < needed {
        return Err(Cause::NoSpace(needed));
    }
    put(out);
    Ok(needed)
}
