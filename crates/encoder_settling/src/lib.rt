// The answer for the windows of a set that were gathered: the seeds, cause 8 or cause 9.
#![tactic(auto)]

ghost use Rattle.std.specs.Prelude.{◌≡◌, ◌≤◌, length};
ghost use Rattle.encoder_settling.specs.Settling.{settled};

use refusal_causes::Cause;

// How far the windows of a set lead, and how many they are.
#[derive(Clone, Copy)]
pub struct Gathered {
    pub place: usize,
    pub count: usize,
}

// The answer for the windows of a set of so many slices: cause 8 where they are stuck, cause 9 where there is no space for their seeds, or the seeds.
// An inner function: its callers show that the seeds are there.
pub fn settle(
    slices: usize,
    gathered: Gathered,
    seeds: &[u64],
    out: &mut [u64],
) -> Result<usize, Cause>
    requires { gathered.count ≤ length seeds.now }
    ensures answer { result ≡ (settled slices gathered seeds.now out.old).answer }
    ensures buffer { out.new ≡ (settled slices gathered seeds.now out.old).buffer }
{
    let count = gathered.count;
    if gathered.place < slices {
        return Err(Cause::NoCutting(gathered.place));
    }
    if out.len() < count {
        return Err(Cause::NoSpace(count));
    }
    out[..count].copy_from_slice(&seeds[..count]);
    Ok(count)
}
