// The programs on texts, by the kind of text: the reading of the input, and what is printed for it (document 01, "Sheet and seed list").
#![tactic(auto)]

ghost use Rattle.std.specs.Prelude.{◌≡◌, List, ◌++◌, ℕ, ◌≤◌, length, take, drop};
ghost use Rattle.std.specs.Io.KnownBytes.{Consumes};
ghost use Rattle.io.specs.Counts.{IsPrefixLen};
ghost use Rattle.text_bounds.specs.Bounds.{enough, most_text};
ghost use Rattle.text_calls.specs.Texts.{reply_to, printed_for};
ghost use Rattle.text_meaning.specs.Calls.{ReplyMeaning};
ghost use Rattle.text_program.specs.Answered.{IsAnswered};

use std::io::{Read, Write};
use text_order::Kind;

// The bytes of the input that can decide the answer.
pub const LONGEST_INPUT: usize = 169601;

// The bytes of the longest answer.
pub const LONGEST_OUTPUT: usize = 145408;

// What a program prints for a text, at the front of a buffer that has space for every answer: how many bytes it is.
// An inner function: `run` shows that the buffer has it.
pub fn reply(kind: Kind, text: &[u8], out: &mut [u8]) -> usize
    requires { most_text ≤ length out.old }
    ensures count { result ≡ length (printed_for kind text.now) }
    ensures bytes { out.new ≡ printed_for kind text.now ++ drop (length (printed_for kind text.now)) out.old }
    ensures within { IsPrefixLen result out.new }
    ensures meaning { ReplyMeaning kind text.now (reply_to kind text.now) }
{
    let answer = text_calls::call(kind, text, out);
    text_replies::print(answer, out)
}

// Reads the text into a buffer that holds every byte that can decide the answer; what follows them is not read. How many bytes there are.
// An inner function: `run` shows that the buffer does. What stands on standard input is not the program's to promise.
pub fn read_text<R: Read>(reader: &mut R, buffer: &mut [u8]) -> usize
    requires { enough ≤ length buffer.old }
    ensures within { IsPrefixLen result buffer.new }
    ensures bytes { Consumes (R.remaining reader.old) (R.remaining reader.new) (take result buffer.new) }
{
    stream::read_all(reader, buffer)
}

// Reads a text of a kind and writes what is printed for it. What the writer gets is the beginning of what is printed for the text that came from the reader;
// that the text is read and the answer written to the end is not promised, since a read and a write can fail.
pub fn run<R: Read, W: Write>(kind: Kind, reader: &mut R, writer: &mut W)
    ensures answered { IsAnswered (printed_for kind) (R.remaining reader.old) (R.remaining reader.new) (W.contents writer.old) (W.contents writer.new) }
    ensures meaning { (text : List ℕ) → ReplyMeaning kind text (reply_to kind text) }
{
    let mut input = [0u8; LONGEST_INPUT];
    let mut output = [0u8; LONGEST_OUTPUT];
    let n = read_text(reader, &mut input);
    let count = reply(kind, &input[..n], &mut output);
    stream::write_all(writer, &output[..count]);
}
