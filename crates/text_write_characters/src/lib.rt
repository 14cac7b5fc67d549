// Slices, and lines with a slice, that are written into a lent buffer (document 01, "Sheet and seed list").
// A function writes from a place on, as far as the buffer goes, and answers the place after its text (`text_write_bytes`).
#![tactic(auto)]

ghost use Rattle.std.specs.Prelude.{◌≡◌, ◌+◌, ◌≤◌, ◌<◌, ◌^◌, length};
ghost use Rattle.text_write_characters.specs.Characters.{character as character_of, characters as characters_of, slice_line};
ghost use Rattle.text_write_bytes.specs.Stored.{Stored};

use machine_slices::TestSlice;

// The character of a position that is specified (1) or not (0), with its bit.
fn character(specified: u64, bit: u64) -> u8
    requires { bit ≤ 1 }
    ensures { result ≡ character_of specified bit }
{
    if specified == 0 {
        b'x'
    } else {
        b'0' + bit as u8
    }
}

// Writes the characters of a slice.
fn put_characters(out: &mut [u8], at: usize, chains: usize, slice: TestSlice) -> usize
    requires { at + chains < 2 ^ 64 }
    ensures { Stored out.old at (characters_of chains slice) out.new result }
{
    let mut specified = slice.specified;
    let mut bits = slice.bits;
    for i in 0..chains {
        text_write_bytes::put_byte(out, at + i, character(specified % 2, bits % 2));
        specified /= 2;
        bits /= 2;
    }
    at + chains
}

// Writes a line with a slice behind its key.
// An inner function: its callers show that the place after the line is a number of the machine.
pub fn put_slice_line(
    out: &mut [u8],
    at: usize,
    key: &[u8],
    chains: usize,
    slice: TestSlice,
) -> usize
    requires { at + length (slice_line chains key.now slice) < 2 ^ 64 }
    ensures { Stored out.old at (slice_line chains key.now slice) out.new result }
{
    let value = text_write_bytes::put(out, at, key);
    let end = put_characters(out, value, chains, slice);
    text_write_bytes::put(out, end, b"\n")
}
