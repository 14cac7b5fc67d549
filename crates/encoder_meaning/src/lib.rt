// The encoding of a set as a definition, what its answer means, and the answer of the encoding of cubes.
#![tactic(auto)]

use machine_slices::TestSlice;

// What the encoding of cubes gives: the stop slice, and how many seeds there are.
#[derive(Clone, Copy)]
pub struct Encoded {
    pub stop: TestSlice,
    pub seeds: usize,
}
