// The expanding program: a seed list from standard input, its slices or the refusal to standard output.
#![tactic(auto)]

ghost use Rattle.std.specs.Prelude.{List, ℕ};
ghost use Rattle.text_calls.specs.Texts.{expand_reply, expand_text};
ghost use Rattle.text_program.specs.Answered.{IsAnswered};
ghost use Rattle.text_meaning.specs.Lists.{ListMeaning};

use std::io::{Read, Write};
use text_order::Kind;

// Reads a seed list and writes what is printed for it. What the writer gets is the beginning of what is printed for the text that came from the reader;
// that the text is read and the answer written to the end is not promised, since a read and a write can fail.
fn run<R: Read, W: Write>(reader: &mut R, writer: &mut W)
    ensures answered { IsAnswered expand_text (R.remaining reader.old) (R.remaining reader.new) (W.contents writer.old) (W.contents writer.new) }
    ensures meaning { (list : List ℕ) → ListMeaning list (expand_reply list) }
{
    text_program::run(Kind::SeedList, reader, writer);
}

fn main(rt: HostRuntime) {
    run(&mut rt.stdin(), &mut rt.stdout());
}
