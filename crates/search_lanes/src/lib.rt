// Words that hold one bit for each of 64 members of a space.
#![tactic(auto)]

ghost use Rattle.std.specs.Prelude.{◌≡◌, ℕ, ◌*◌, ◌<◌, take};
ghost use Rattle.words_gf2.specs.Words.{digit};
ghost use Rattle.search_lanes.specs.Lanes.{readings};

// How many vectors tell 64 members apart.
pub const VECTORS: usize = 6;

// A word with every lane set.
pub const ALL: u64 = 0xFFFF_FFFF_FFFF_FFFF;

// Lane i of word k is digit k of i.
const DIGITS: [u64; 6] = [
    0xAAAA_AAAA_AAAA_AAAA,
    0xCCCC_CCCC_CCCC_CCCC,
    0xF0F0_F0F0_F0F0_F0F0,
    0xFF00_FF00_FF00_FF00,
    0xFFFF_0000_FFFF_0000,
    0xFFFF_FFFF_0000_0000,
];

// The word of a digit of the number.
fn digits(place: usize) -> u64
    requires { place < 6 }
    ensures { (i : ℕ) → i < 64 → digit result i ≡ digit i place }
{
    DIGITS[place]
}

// The word, or 0 where the bit is 0. It is a product, so that no branch depends on the bit.
fn only(word: u64, bit: u64) -> u64
    requires { bit < 2 }
    ensures { result ≡ word * bit }
{
    word * bit
}

// The parities of 64 members under the mask: lane i is that of member number i. The first six vectors count.
pub fn reading(lowest: u64, vectors: &[u64], mask: u64) -> u64
    ensures { result ≡ readings lowest (take 6 vectors.now) mask }
{
    let count = VECTORS.min(vectors.len());
    let mut word = only(ALL, words_gf2::odd(lowest, mask));
    for place in 0..count {
        word ^= only(digits(place), words_gf2::odd(vectors[place], mask));
    }
    word
}
