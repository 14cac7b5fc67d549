// The slices that expanding gives, written into a lent buffer (document 01, "Sheet and seed list").
// An inner function writes from a place on, as far as the buffer goes, and answers the place after its text (`text_write_bytes`).
#![tactic(auto)]

ghost use Rattle.std.specs.Prelude.{◌≡◌, ◌+◌, ◌-◌, ◌≤◌, ◌<◌, ◌^◌, length};
ghost use Rattle.refusal_causes.specs.Outcome.{fill};
ghost use Rattle.text_write_bytes.specs.Stored.{Stored};
ghost use Rattle.text_write_slices.specs.Slices.{slice_lines};

use machine_slices::TestSlice;
use refusal_causes::Cause;

// The number that is 1 at each of so many chains.
fn all_chains(chains: usize) -> u64
    requires { chains ≤ 64 }
    ensures { result ≡ 2 ^ chains - 1 }
{
    if chains == 64 {
        return u64::MAX;
    }
    (1 << chains) - 1
}

// Writes a slice line for each slice that expanding gives.
fn put_slice_lines(out: &mut [u8], at: usize, chains: usize, slices: &[u64]) -> usize
    requires { (chains ≤ 64) × (at + length (slice_lines chains slices.now) < 2 ^ 64) }
    ensures { Stored out.old at (slice_lines chains slices.now) out.new result }
{
    let specified = all_chains(chains);
    let mut place = at;
    for &bits in slices {
        let slice = TestSlice { specified, bits };
        place = text_write_characters::put_slice_line(out, place, b"slice=", chains, slice);
    }
    place
}

// The slices that expanding gives in a lent buffer, or cause 9 with the bytes needed.
// An inner function: its callers show that there are at most 64 chains and 2,048 slices.
pub fn write_slices(out: &mut [u8], chains: usize, slices: &[u64]) -> Result<usize, Cause>
    requires { (chains ≤ 64) × (length slices.now ≤ 2048) }
    ensures answer { result ≡ (fill (slice_lines chains slices.now) out.old).answer }
    ensures buffer { out.new ≡ (fill (slice_lines chains slices.now) out.old).buffer }
{
    text_write_bytes::write(out, |out| put_slice_lines(out, 0, chains, slices))
}
