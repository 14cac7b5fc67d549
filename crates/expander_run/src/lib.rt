// How many slices one seed of a list delivers (document 01, causes 10, 11 and 12 of its refusal sheet; document 02, R-5: the last seed need not close).
#![tactic(auto)]

ghost use Rattle.std.specs.Prelude.{◌≡◌, ◌≤◌, length};
ghost use Rattle.std.specs.Coded.{Coded-set};
ghost use Rattle.refusal_lengths.specs.Lengths.{most_limit};
ghost use Rattle.machine_settings.specs.Machine.{register_of, machine};
ghost use Rattle.theory_covering.specs.Rules.{rules};
ghost use Rattle.expander_meaning.specs.Run.{delivers};
ghost use Rattle.expander_meaning.specs.Sized.{Sized};
ghost use Rattle.expander_meaning.specs.Until.{until_stop};
ghost use Rattle.expander_run.specs.Told.{told, looked_at};

use machine_register::Register;
use machine_settings::Settings;
use machine_slices::TestSlice;
use refusal_causes::Cause;

// What the seeds of a list are expanded with: the settings, their register, the chains, and the stop slice that ends each seed.
// Whoever makes one shows that register and chains fit words and that the register is that of the settings.
#[derive(Clone, Copy)]
pub struct Expander<'a> {
    pub settings: Settings,
    pub register: Register,
    pub masks: &'a [u64],
    pub stop: TestSlice,
    pub ghost ready: { Sized settings masks.now },
    pub ghost made: { register ≡ register_of settings } by { Coded-set register-code register (register_of settings) },
}

// How many slices a state is looked at for: one beyond the limit, or as many as are left for a last seed that need not close; slice 0 always.
fn looked_at(limit: usize, unclosed: bool, left: usize) -> usize
    requires { limit ≤ most_limit }
    ensures { result ≡ looked_at limit unclosed left }
{
    if !unclosed {
        return limit + 1;
    }
    if left == 0 {
        return 1;
    }
    left
}

impl<'a> Expander<'a> {
    // How many of the first slices of a state, of so many that are looked at, come before its stop.
    fn before_stop(&self, looked: usize, seed: u64) -> usize
        ensures { result ≡ length (until_stop (machine self.now.settings self.now.masks.now) self.now.stop looked seed) }
    {
        let mut state = seed;
        for t in 0..looked {
            if machine_slices::shows(
                self.stop,
                machine_settings::slice(self.settings, self.masks, state),
            ) {
                return t;
            }
            state = self.register.step(state);
        }
        looked
    }

    // How many slices a seed delivers, or 10, 11 or 12 with its place. last: no seed follows; left: the slices that the list still owes.
    pub fn run_of(&self, place: usize, last: bool, left: usize, seed: u64) -> Result<usize, Cause>
        ensures { result ≡ told (delivers (machine self.now.settings self.now.masks.now) (rules self.now.settings self.now.stop) self.now.stop place last left seed) }
    {
        if words_gf2::beyond(self.settings.cells, seed) {
            return Err(Cause::SeedBeyond(place));
        }
        let unclosed = last && left <= self.settings.limit;
        let looked = looked_at(self.settings.limit, unclosed, left);
        let length = self.before_stop(looked, seed);
        if length == 0 {
            return Err(Cause::SeedAtStop(place));
        }
        if unclosed {
            return Ok(left.min(length));
        }
        if self.settings.limit < length {
            return Err(Cause::SeedEndless(place));
        }
        Ok(length)
    }
}
