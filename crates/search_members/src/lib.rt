// The members of a space by number.
#![tactic(auto)]

ghost use Rattle.std.specs.Prelude.{◌≡◌, take};
ghost use Rattle.search_members.specs.Members.{pick};

// The member of a number: the lowest, with each of the first vectors of the buffer added whose digit in the number is 1.
pub fn member(lowest: u64, vectors: &[u64], free: usize, number: usize) -> u64
    ensures { result ≡ pick lowest (take free vectors.now) number }
{
    let count = free.min(vectors.len());
    let mut state = lowest;
    let mut left = number;
    for &vector in &vectors[..count] {
        if left % 2 == 1 {
            state ^= vector;
        }
        left /= 2;
    }
    state
}
