// A space that is kept: written at its place and read from there.
#![tactic(auto)]

ghost use Rattle.std.specs.Prelude.{◌≡◌, ℕ, ◌+◌, ◌<◌, ◌≤◌, get_or, length, take};
ghost use Rattle.window_spaces.specs.Holding.{held_vectors, Holds};

use search_space::Space;

// The entries of a space that is kept: a lowest member, a number of vectors, and 64 vectors.
pub const SPACE_ENTRIES: usize = 66;

// A space and its vectors, written from a place on.
// What stands behind the space that is written is left open.
// An inner function: its callers show that the entries of a space fit from the place on and that there are 64 vectors.
pub fn store(spaces: &mut [u64], place: usize, space: Space, vectors: &[u64])
    requires place_in_bounds { place + 66 ≤ length spaces.old }
    requires vectors_len { length vectors.now ≡ 64 }
    ensures before { (i : ℕ) → i < place → get_or spaces.new i 0 ≡ get_or spaces.old i 0 }
    ensures space { Holds spaces.new place space.lowest space.free (take space.free vectors.now) }
{
    let free = space.free;
    let count = free.min(64);
    spaces[place] = space.lowest;
    spaces[place + 1] = free as u64;
    let first = place + 2;
    spaces[first..first + count].copy_from_slice(&vectors[..count]);
}

// The vectors of a space that was written at a place.
// Entries behind these vectors are left open.
// An inner function: its callers show that the entries of a space fit from the place on.
pub fn load(spaces: &[u64], place: usize, free: usize) -> [u64; 64]
    requires { place + 66 ≤ length spaces.now }
    ensures { take free result ≡ held_vectors spaces.now place free }
{
    let mut vectors = [0u64; 64];
    let count = free.min(64);
    let first = place + 2;
    vectors[..count].copy_from_slice(&spaces[first..first + count]);
    vectors
}
