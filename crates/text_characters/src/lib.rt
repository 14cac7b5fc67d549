// The slice that the value of a line says (document 01, "Sheet and seed list").
#![tactic(auto)]

ghost use Rattle.std.specs.Prelude.{◌≡◌, ◌≤◌, length};
ghost use Rattle.text_characters.specs.Characters.{is_character, specified_at, bit_at, slice_of};

use machine_slices::TestSlice;

// Whether a byte is one of the three characters of a slice.
fn is_character(b: u8) -> bool
    ensures { result ≡ is_character b }
{
    if b == b'0' {
        return true;
    }
    if b == b'1' {
        return true;
    }
    b == b'x'
}

// 1 where a character specifies a bit.
fn specified_at(b: u8) -> u64
    ensures { result ≡ specified_at b }
{
    if b == b'x' { 0 } else { 1 }
}

// The bit of a character, 0 where there is none.
fn bit_at(b: u8) -> u64
    ensures { result ≡ bit_at b }
{
    if b == b'1' { 1 } else { 0 }
}

// The slice that the characters say. The first has the least weight, so they are read from the last.
// An inner function: its callers show that there are at most 64 characters.
pub fn slice_of(value: &[u8]) -> Option<TestSlice>
    requires { length value.now ≤ 64 }
    ensures { result ≡ slice_of value.now }
{
    let mut specified: u64 = 0;
    let mut bits: u64 = 0;
    for &b in value.iter().rev() {
        if !is_character(b) {
            return None;
        }
        specified = specified * 2 + specified_at(b);
        bits = bits * 2 + bit_at(b);
    }
    Some(TestSlice { specified, bits })
}
