// Seed lists that are written into a lent buffer (document 01, "Sheet and seed list").
// An inner function writes from a place on, as far as the buffer goes, and answers the place after its text (`text_write_bytes`).
#![tactic(auto)]

ghost use Rattle.std.specs.Prelude.{◌≡◌, ◌+◌, ◌≤◌, ◌<◌, ◌^◌, length};
ghost use Rattle.refusal_causes.specs.Outcome.{fill};
ghost use Rattle.text_write_bytes.specs.Stored.{Stored};
ghost use Rattle.text_write_list.specs.SeedList.{list_text};

use machine_slices::TestSlice;
use refusal_causes::Cause;

// Writes a seed list.
fn put_list(
    out: &mut [u8],
    at: usize,
    head: &[u8],
    chains: usize,
    stop: TestSlice,
    slices: usize,
    seeds: &[u64],
) -> usize
    requires { at + length (list_text head.now chains stop slices seeds.now) < 2 ^ 64 }
    ensures { Stored out.old at (list_text head.now chains stop slices seeds.now) out.new result }
{
    let a = text_write_bytes::put(out, at, head);
    let b = text_write_characters::put_slice_line(out, a, b"stop=", chains, stop);
    let c = text_write_numbers::put_number_line(out, b, 10, b"slices=", slices as u64);
    text_write_numbers::put_number_lines(out, c, 16, b"seed=", seeds)
}

// The seed list in a lent buffer, or cause 9 with the bytes needed. The head is the sheet's lines before depth.
// An inner function: its callers show that the head has at most 65,536 bytes and that there are at most 64 chains and 2,048 seeds, so that the bytes needed are a number of the machine.
pub fn write_list(
    out: &mut [u8],
    head: &[u8],
    chains: usize,
    stop: TestSlice,
    slices: usize,
    seeds: &[u64],
) -> Result<usize, Cause>
    requires { (length head.now ≤ 65536) × (chains ≤ 64) × (length seeds.now ≤ 2048) }
    ensures answer { result ≡ (fill (list_text head.now chains stop slices seeds.now) out.old).answer }
    ensures buffer { out.new ≡ (fill (list_text head.now chains stop slices seeds.now) out.old).buffer }
{
    text_write_bytes::write(
        out,
        |out| put_list(out, 0, head, chains, stop, slices, seeds),
    )
}
