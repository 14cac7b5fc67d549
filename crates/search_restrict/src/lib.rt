// A space under an equation: the members whose parity under a mask is the wanted one.
#![tactic(auto)]

ghost use Rattle.std.specs.Prelude.{◌≡◌};
ghost use Rattle.search_restrict.specs.Restricted.{restricted_buffer, restricted_if, shifted as shifted_of};

use search_space::Space;

// The lowest member under an equation: the one that was lowest where it reads the wanted bit, else that with the pivot added.
fn shifted(mask: u64, wanted: u64, lowest: u64, pivot: u64) -> u64
    ensures { result ≡ shifted_of mask wanted lowest pivot }
{
    if words_gf2::odd(lowest, mask) == wanted {
        lowest
    } else {
        lowest ^ pivot
    }
}

// The members whose parity under the mask is the wanted one, or None where there is none. A single state is only read. A space that is absent stays so, and the buffer as it was.
pub fn restrict(vectors: &mut [u64], space: Option<Space>, mask: u64, wanted: u64) -> Option<Space>
    ensures answer { result ≡ restricted_if mask wanted vectors.old space }
    ensures buffer { vectors.new ≡ restricted_buffer mask vectors.old space }
{
    let space = space?;
    if space.free == 0 {
        if words_gf2::odd(space.lowest, mask) == wanted {
            return Some(space);
        }
        return None;
    }
    let taken = search_pivot::take_out(vectors, space.free, mask);
    let lowest = shifted(mask, wanted, space.lowest, taken.pivot);
    if words_gf2::odd(lowest, mask) != wanted {
        return None;
    }
    Some(Space {
        lowest,
        free: taken.left,
    })
}
