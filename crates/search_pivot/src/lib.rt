// The pivot of a mask: the first vector that is odd under it, taken out of the vectors of a space.
#![tactic(auto)]

ghost use Rattle.std.specs.Prelude.{◌≡◌, map, ◌++◌, ◌+◌, ◌<◌, ◌≤◌, drop, get_or, length, take, ltb, IfSome};
ghost use Rattle.std.proofs.lemmas.List.Edits.{sets};
ghost use Rattle.search_pivot.specs.Pivot.{added as added_of, pivot, without};
ghost use Rattle.search_pivot.specs.FirstOdd.{first_odd};

// What taking out the pivot of a mask gives: the pivot, or 0 where no vector is odd, and how many vectors are left. Adding 0 changes no state, so the pivot is no Option.
#[derive(Clone, Copy)]
pub struct Taken {
    pub pivot: u64,
    pub left: usize,
}

// The place of the first vector that is odd under the mask, or None where none is.
fn first_odd(vectors: &[u64], free: usize, mask: u64) -> Option<usize>
    requires { free ≤ length vectors.now }
    ensures first { result ≡ first_odd mask (take free vectors.now) }
    ensures within { IfSome result (λ place. place < free) }
{
    vectors[..free]
        .iter()
        .position(|&candidate| words_gf2::odd(candidate, mask) == 1)
}

// Whether some of the first vectors of the buffer is odd under the mask, so that members differ there.
pub fn splits(vectors: &[u64], free: usize, mask: u64) -> bool
    ensures { result ≡ ltb 0 (pivot mask (take free vectors.now)) }
{
    let count = free.min(vectors.len());
    first_odd(vectors, count, mask).is_some()
}

// A vector, with the pivot added where it is odd under the mask.
fn added(mask: u64, pivot: u64, vector: u64) -> u64
    ensures { result ≡ added_of mask pivot vector }
{
    if words_gf2::odd(vector, mask) == 1 {
        vector ^ pivot
    } else {
        vector
    }
}

// Each vector after the pivot moves one place down, with the pivot added where it is odd.
fn close_up(vectors: &mut [u64], free: usize, place: usize, mask: u64)
    requires { (place < free) × (free ≤ length vectors.old) }
    ensures { vectors.new ≡ sets vectors.old place (map (added_of mask (get_or vectors.old place 0)) (drop (place + 1) (take free vectors.old))) }
{
    let pivot = vectors[place];
    for next in place + 1..free {
        vectors[next - 1] = added(mask, pivot, vectors[next]);
    }
}

// The pivot of the mask is taken out of the first vectors of the buffer: those that are left come first, then every other entry as it was.
pub fn take_out(vectors: &mut [u64], free: usize, mask: u64) -> Taken
    ensures answer { result ≡ record { pivot = pivot mask (take free vectors.old); left = length (without mask (take free vectors.old)) } }
    ensures buffer { vectors.new ≡ without mask (take free vectors.old) ++ drop (length (without mask (take free vectors.old))) vectors.old }
{
    let count = free.min(vectors.len());
    let Some(place) = first_odd(vectors, count, mask) else {
        return Taken {
            pivot: 0,
            left: count,
        };
    };
    let pivot = vectors[place];
    close_up(vectors, count, place, mask);
    Taken {
        pivot,
        left: count - 1,
    }
}
