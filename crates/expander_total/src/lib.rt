// How many slices the seeds of a list deliver (document 01, causes 10, 11 and 12 of its refusal sheet; document 02, R-5: a last seed with nothing left to deliver is cause 14).
#![tactic(auto)]

ghost use Rattle.std.specs.Prelude.{◌≡◌, ◌≤◌, length};
ghost use Rattle.machine_settings.specs.Machine.{machine};
ghost use Rattle.theory_covering.specs.Rules.{rules};
ghost use Rattle.expander_meaning.specs.Expanding.{walk};
ghost use Rattle.expander_total.specs.Tally.{tally};

use expander_run::Expander;
use refusal_causes::Cause;

// How many slices the seeds deliver, or the cause of the first refused seed: seeds are tested one after another by 10, 11, 12. 14 where the last one adds none.
// An inner function: its callers show that there are at most 2,048 seeds, so that the total is a number of the machine.
pub fn total_of(expander: &Expander, slices: usize, seeds: &[u64]) -> Result<usize, Cause>
    requires seeds { length seeds.now ≤ 2048 }
    ensures { result ≡ tally 0 (walk (machine expander.now.settings expander.now.masks.now) (rules expander.now.settings expander.now.stop) slices 0 0 seeds.now) }
{
    let mut total = 0;
    for (place, &seed) in seeds.iter().enumerate() {
        let left = slices.saturating_sub(total);
        let last = place + 1 == seeds.len();
        let length = expander.run_of(place, last, left, seed)?;
        if length == 0 {
            return Err(Cause::Total(total));
        }
        total += length;
    }
    Ok(total)
}
