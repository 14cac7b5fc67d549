// Words as vectors of bits (document 01, "Register and chains"): the digits of a word, its parity under a mask, and bits beyond a width.
#![tactic(auto)]

ghost use Rattle.std.specs.Prelude.{◌≡◌};
ghost use Rattle.words_gf2.specs.Words.{digit as digit_of, odd as odd_of, beyond as beyond_of};

// What a cell of the word holds.
pub fn digit(word: u64, cell: usize) -> u64
    ensures { result ≡ digit_of word cell }
{
    if cell < 64 { (word >> cell) % 2 } else { 0 }
}

// 1 where an odd number of the cells in the mask hold 1, else 0.
pub fn odd(state: u64, mask: u64) -> u64
    ensures { result ≡ odd_of state mask }
{
    (u64::count_ones(state & mask) as u64) % 2
}

// Whether a word has a bit at or above a width.
pub fn beyond(width: usize, word: u64) -> bool
    ensures { result ≡ beyond_of width word }
{
    if width < 64 {
        0 < (word >> width)
    } else {
        false
    }
}
