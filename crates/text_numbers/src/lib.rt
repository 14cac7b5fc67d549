// The number that the value of a line says (document 01, "Sheet and seed list").
#![tactic(auto)]

ghost use Rattle.std.specs.Prelude.{◌≡◌, ◌≤◌, ◌^◌, length};
ghost use Rattle.text_numbers.specs.Numbers.{worth as worth_of, digits as digits_of, number as number_of};

// What a byte is worth as a digit; 16 where it is none.
fn worth(b: u8) -> u64
    ensures { result ≡ worth_of b }
{
    if (b'0'..=b'9').contains(&b) {
        (b - b'0') as u64
    } else if (b'a'..=b'f').contains(&b) {
        (b - b'a' + 10) as u64
    } else {
        16
    }
}

// The number that the bytes say as digits.
fn digits(base: u64, value: &[u8]) -> Option<u64>
    requires { (1 ≤ base) × (base ^ length value.now ≤ 2 ^ 64) }
    ensures { result ≡ digits_of base 0 value.now }
{
    let mut v = 0;
    for &b in value {
        let d = worth(b);
        if base <= d {
            return None;
        }
        v = v * base + d;
    }
    Some(v)
}

// The number that 1 to `most` digits say, with no leading zero.
// An inner function: its callers show that the base is no 0 and that so many digits fit a word.
pub fn number(base: u64, most: usize, value: &[u8]) -> Option<u64>
    requires { (1 ≤ base) × (base ^ most ≤ 2 ^ 64) }
    ensures { result ≡ number_of base most value.now }
{
    if !(1..=most).contains(&value.len()) {
        return None;
    }
    if value.len() > 1 && value[0] == b'0' {
        return None;
    }
    digits(base, value)
}
