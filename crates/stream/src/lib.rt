// Input and output in full, over any reader and writer: a partial or an interrupted call loses nothing.
// The bytes that count are the next ones of the reader, and the writer gets those that count and no other: the contracts say so of every
// reader and writer whose bytes are known. What the system's own streams give and take is open, and there they limit the counts alone.
#![tactic(auto)]

ghost use Rattle.std.specs.Prelude.{take};
ghost use Rattle.std.specs.Io.KnownBytes.{Appends, Consumes};
ghost use Rattle.io.specs.Counts.{IsPrefixLen};

use std::io::{Read, Write};

// How often a call that fails is made again: an interrupted one succeeds then, and one that cannot succeed ends.
const MOST_TRIES: usize = 1000000;

// One read: how many bytes came, or 0 at the end of the input or where every try fails.
fn read_some<R: Read>(reader: &mut R, part: &mut [u8]) -> usize
    ensures within { IsPrefixLen result part.new }
    ensures bytes { Consumes (R.remaining reader.old) (R.remaining reader.new) (take result part.new) }
{
    for _ in 0..MOST_TRIES {
        if let Ok(got) = reader.read(part) {
            return got;
        }
    }
    0
}

// Reads until the buffer is full or the input ends: how many bytes there are. They are those that the reader gave, and it has the others still.
pub fn read_all<R: Read>(reader: &mut R, buffer: &mut [u8]) -> usize
    ensures within { IsPrefixLen result buffer.new }
    ensures bytes { Consumes (R.remaining reader.old) (R.remaining reader.new) (take result buffer.new) }
{
    let mut done = 0;
    // Not a `for`: it moves by as many bytes as a read gave.
    while done < buffer.len() {
        let more = read_some(reader, &mut buffer[done..]);
        if more == 0 {
            return done;
        }
        done += more;
    }
    done
}

// One write: how many of the first bytes were taken, or 0 where every try fails.
fn write_some<W: Write>(writer: &mut W, part: &[u8]) -> usize
    ensures within { IsPrefixLen result part.now }
    ensures bytes { Appends (W.contents writer.old) (W.contents writer.new) (take result part.now) }
{
    for _ in 0..MOST_TRIES {
        if let Ok(got) = writer.write(part) {
            return got;
        }
    }
    0
}

// Writes all of the bytes: how many were taken, which is fewer only where the writer takes no more.
pub fn write_all<W: Write>(writer: &mut W, bytes: &[u8]) -> usize
    ensures within { IsPrefixLen result bytes.now }
    ensures bytes { Appends (W.contents writer.old) (W.contents writer.new) (take result bytes.now) }
{
    let mut sent = 0;
    // Not a `for`: it moves by as many bytes as a write took.
    while sent < bytes.len() {
        let more = write_some(writer, &bytes[sent..]);
        if more == 0 {
            return sent;
        }
        sent += more;
    }
    sent
}
