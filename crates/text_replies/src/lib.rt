// The answers of the text calls, and how they are printed (document 01, "Sheet and seed list").
#![tactic(auto)]

ghost use Rattle.std.specs.Prelude.{◌≡◌};
ghost use Rattle.refusal_causes.specs.Sheet.{refusal_of};
ghost use Rattle.text_replies.specs.Calls.{answered as answered_of, bytes_of, shown};

use refusal_causes::{Cause, Refusal};

// What a text call wrote: how many bytes, and how many seeds or slices they say.
#[derive(Clone, Copy)]
pub struct TextWritten {
    pub bytes: usize,
    pub entries: usize,
}

// Why a text call wrote nothing, and for cause 9 how many seeds or slices enough space would have given, else 0.
#[derive(Clone, Copy)]
pub struct TextRefused {
    pub refusal: Refusal,
    pub entries: usize,
}

// A refusal that is told beside no seeds or slices.
impl From<Refusal> for TextRefused {
    ghost from_gives = { λ refusal told. told ≡ record { refusal = refusal; entries = 0 } };

    fn from(refusal: Refusal) -> TextRefused {
        TextRefused {
            refusal,
            entries: 0,
        }
    }
}

impl From<Cause> for TextRefused {
    ghost from_gives = { λ cause told. told ≡ record { refusal = refusal_of cause; entries = 0 } };

    fn from(cause: Cause) -> TextRefused {
        TextRefused::from(Refusal::from(cause))
    }
}

// The answer to a text with so many seeds or slices.
pub fn answered(entries: usize, written: Result<usize, Cause>) -> Result<TextWritten, TextRefused>
    ensures { result ≡ answered_of entries written }
{
    match written {
        Ok(bytes) => Ok(TextWritten { bytes, entries }),
        Err(cause) => Err(TextRefused {
            refusal: Refusal::from(cause),
            entries,
        }),
    }
}

// How many bytes were written.
fn bytes_of(written: Result<usize, Cause>) -> usize
    ensures { result ≡ bytes_of written }
{
    written.unwrap_or(0)
}

// Prints an answer from its buffer: how many bytes of the buffer are the text that is there, or the refusal.
pub fn print(answer: Result<TextWritten, TextRefused>, out: &mut [u8]) -> usize
    ensures count { result ≡ (shown answer out.old).count }
    ensures buffer { out.new ≡ (shown answer out.old).buffer }
{
    match answer {
        Ok(text) => text.bytes,
        Err(told) => bytes_of(text_write_refusal::write_refusal(out, told.refusal)),
    }
}
