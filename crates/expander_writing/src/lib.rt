// The slices of the seeds of a list, written into a buffer. Each seed ends at its stop, the last one where the slices end (document 02, R-5).
#![tactic(auto)]

ghost use Rattle.std.specs.Prelude.{◌≡◌, List, ℕ, ◌+◌, ◌-◌, ◌≤◌, length};
ghost use Rattle.std.proofs.lemmas.List.Edits.{sets};
ghost use Rattle.machine_settings.specs.Machine.{machine};
ghost use Rattle.theory_covering.specs.Rules.{rules};
ghost use Rattle.expander_meaning.specs.Expanding.{ran, walk};
ghost use Rattle.expander_meaning.specs.Until.{until_stop};

use expander_run::Expander;

// Writes the slices of a seed up to its stop, from a place of the buffer on and as far as the slices go; answers the place behind them.
fn write_run(expander: &Expander, seed: u64, at: usize, slices: usize, out: &mut [u64]) -> usize
    requires place { (at ≤ slices) × (slices ≤ length out.old) }
    ensures place { result ≡ at + length (until_stop (machine expander.now.settings expander.now.masks.now) expander.now.stop (slices - at) seed) }
    ensures buffer { out.new ≡ sets out.old at (until_stop (machine expander.now.settings expander.now.masks.now) expander.now.stop (slices - at) seed) }
{
    let mut state = seed;
    for i in at..slices {
        let slice = machine_settings::slice(expander.settings, expander.masks, state);
        if machine_slices::shows(expander.stop, slice) {
            return i;
        }
        out[i] = slice;
        state = expander.register.step(state);
    }
    slices
}

// Writes the slices of all seeds, one behind the other.
// An inner function: its callers show that the buffer has space for the slices. Where a seed is refused or the total differs, nothing is promised of the entries: its caller has ruled that out.
pub fn write_all(expander: &Expander, slices: usize, seeds: &[u64], out: &mut [u64])
    requires space { slices ≤ length out.old }
    ensures { (vs : List ℕ) → walk (machine expander.now.settings expander.now.masks.now) (rules expander.now.settings expander.now.stop) slices 0 0 seeds.now ≡ ran vs → length vs ≡ slices → out.new ≡ sets out.old 0 vs }
{
    let mut at = 0;
    for &seed in seeds {
        at = write_run(expander, seed, at, slices, out);
    }
}
