// The encoding program: a sheet from standard input, its seed list or the refusal to standard output.
#![tactic(auto)]

ghost use Rattle.std.specs.Prelude.{List, ℕ};
ghost use Rattle.text_calls.specs.Texts.{encode_reply, encode_text};
ghost use Rattle.text_program.specs.Answered.{IsAnswered};
ghost use Rattle.text_meaning.specs.Sheets.{SheetMeaning};

use std::io::{Read, Write};
use text_order::Kind;

// Reads a sheet and writes what is printed for it. What the writer gets is the beginning of what is printed for the text that came from the reader;
// that the text is read and the answer written to the end is not promised, since a read and a write can fail.
fn run<R: Read, W: Write>(reader: &mut R, writer: &mut W)
    ensures answered { IsAnswered encode_text (R.remaining reader.old) (R.remaining reader.new) (W.contents writer.old) (W.contents writer.new) }
    ensures meaning { (sheet : List ℕ) → SheetMeaning sheet (encode_reply sheet) }
{
    text_program::run(Kind::Sheet, reader, writer);
}

fn main(rt: HostRuntime) {
    run(&mut rt.stdin(), &mut rt.stdout());
}
