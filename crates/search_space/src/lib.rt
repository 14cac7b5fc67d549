// Spaces of states: the solutions of linear equations over the cells, as the lowest one and vectors that lead to the others. The vectors stand in a lent buffer beside the space.
#![tactic(auto)]

ghost use Rattle.std.specs.Prelude.{◌≡◌};
ghost use Rattle.search_space.specs.Space.{units as units_of};

// A space: its lowest member, and how many entries of the buffer are its vectors. It has a member always.
#[derive(Clone, Copy)]
pub struct Space {
    pub lowest: u64,
    pub free: usize,
}

// The unit vectors of 64 cells. With lowest member 0, the first of them give all states of that many cells.
pub fn units() -> [u64; 64]
    ensures { result ≡ units_of 0 64 }
{
    let mut vectors = [0u64; 64];
    for (cell, vector) in vectors.iter_mut().enumerate() {
        *vector = 1u64 << cell;
    }
    vectors
}
