// Numbers, and lines with a number, that are written into a lent buffer (document 01, "Sheet and seed list").
// A function writes from a place on, as far as the buffer goes, and answers the place after its text (`text_write_bytes`).
#![tactic(auto)]

ghost use Rattle.std.specs.Prelude.{◌≡◌, ◌+◌, ◌≤◌, ◌<◌, ◌^◌, length, drop};
ghost use Rattle.text_write_numbers.specs.Numerals.{glyph as glyph_of, numeral as numeral_of};
ghost use Rattle.text_write_bytes.specs.Stored.{Stored};
ghost use Rattle.text_write_numbers.specs.Lines.{number_line, number_lines};

// The byte of a digit.
fn glyph(d: u64) -> u8
    requires { d < 16 }
    ensures { result ≡ glyph_of d }
{
    if d < 10 {
        b'0' + d as u8
    } else {
        b'a' - 10 + d as u8
    }
}

// The digits of a number, put at the end of the buffer: where they begin.
fn numeral(base: u64, n: u64, digits: &mut [u8]) -> usize
    requires { (10 ≤ base) × (base ≤ 16) × (length digits.old ≡ 20) }
    ensures { (result ≤ 20) × (drop result digits.new ≡ numeral_of base n) }
{
    let mut i = 20;
    let mut rest = n;
    // Not a `for`: it ends when one digit is left.
    while base <= rest {
        i -= 1;
        digits[i] = glyph(rest % base);
        rest /= base;
    }
    i -= 1;
    digits[i] = glyph(rest);
    i
}

// Writes a number.
fn put_number(out: &mut [u8], at: usize, base: u64, n: u64) -> usize
    requires { (10 ≤ base) × (base ≤ 16) × (at + length (numeral_of base n) < 2 ^ 64) }
    ensures { Stored out.old at (numeral_of base n) out.new result }
{
    let mut digits = [0u8; 20];
    let i = numeral(base, n, &mut digits);
    text_write_bytes::put(out, at, &digits[i..])
}

// Writes a line with a number behind its key.
// An inner function: its callers show that the base is 10 to 16 and that the place after the line is a number of the machine.
pub fn put_number_line(out: &mut [u8], at: usize, base: u64, key: &[u8], n: u64) -> usize
    requires { (10 ≤ base) × (base ≤ 16) × (at + length (number_line base key.now n) < 2 ^ 64) }
    ensures { Stored out.old at (number_line base key.now n) out.new result }
{
    let value = text_write_bytes::put(out, at, key);
    let end = put_number(out, value, base, n);
    text_write_bytes::put(out, end, b"\n")
}

// Writes such a line for each number.
// An inner function: its callers show that the base is 10 to 16 and that the place after the lines is a number of the machine.
pub fn put_number_lines(out: &mut [u8], at: usize, base: u64, key: &[u8], numbers: &[u64]) -> usize
    requires { (10 ≤ base) × (base ≤ 16) × (at + length (number_lines base key.now numbers.now) < 2 ^ 64) }
    ensures { Stored out.old at (number_lines base key.now numbers.now) out.new result }
{
    let mut place = at;
    for &number in numbers {
        place = put_number_line(out, place, base, key, number);
    }
    place
}
