// The expanding of a seed list back to slices (document 01, "Register and chains" and causes 10, 11, 12, 14 and 9 of its refusal sheet).
#![tactic(auto)]

ghost use Rattle.std.specs.Prelude.{◌≡◌, ◌≤◌, length};
ghost use Rattle.machine_settings.specs.Machine.{machine};
ghost use Rattle.theory_covering.specs.Rules.{rules};
ghost use Rattle.expander_meaning.specs.Expanding.{expanding, expand_list};

use expander_run::Expander;
use machine_register::Register;
use machine_settings::Settings;
use machine_slices::TestSlice;
use refusal_causes::Cause;

// The expanding of a list that is well-formed: the seeds' causes, then 14, then 9, then the slices.
fn expand_formed(
    expander: &Expander,
    slices: usize,
    seeds: &[u64],
    out: &mut [u64],
) -> Result<usize, Cause>
    requires seeds { length seeds.now ≤ 2048 }
    ensures answer { result ≡ (expanding (machine expander.now.settings expander.now.masks.now) (rules expander.now.settings expander.now.stop) slices seeds.now out.old).answer }
    ensures buffer { out.new ≡ (expanding (machine expander.now.settings expander.now.masks.now) (rules expander.now.settings expander.now.stop) slices seeds.now out.old).buffer }
{
    let total = expander_total::total_of(expander, slices, seeds)?;
    if total != slices {
        return Err(Cause::Total(total));
    }
    if out.len() < total {
        return Err(Cause::NoSpace(total));
    }
    expander_writing::write_all(expander, slices, seeds, out);
    Ok(total)
}

// The slices of a seed list: how many were written into the buffer, or causes 1, 2, 3, 5, then 10, 11, 12 of the first refused seed, then 14, then 9.
pub fn expand_list(
    settings: Settings,
    masks: &[u64],
    stop: TestSlice,
    slices: usize,
    seeds: &[u64],
    out: &mut [u64],
) -> Result<usize, Cause>
    ensures answer { result ≡ (expand_list settings masks.now stop slices seeds.now out.old).answer }
    ensures buffer { out.new ≡ (expand_list settings masks.now stop slices seeds.now out.old).buffer }
{
    let register = Register::new(settings.cells, settings.taps)?;
    refusal_checks::check_list(settings, masks, stop, slices, seeds.len())?;
    let expander = Expander {
        settings,
        register,
        masks,
        stop,
    };
    expand_formed(&expander, slices, seeds, out)
}
