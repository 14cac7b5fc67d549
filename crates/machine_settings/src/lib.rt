// The settings of a call and the slice of a state under them (document 01, "Register and chains", and "Covering and cutting" on the longest window; document 02, R-3 and R-4).
#![tactic(auto)]

ghost use Rattle.std.specs.Prelude.{◌≡◌, take};
ghost use Rattle.machine_settings.specs.Machine.{machine, bad_chains_of};

use machine_register::Register;

// The most slices of a window where no limit is given.
pub const DEFAULT_LIMIT: usize = Register::LONGEST_WINDOW;

// The inverted chains where none are given.
pub const NONE_INVERTED: u64 = 0;

// The settings of a call, as they are handed in and not yet judged: cells and taps of its register, the most slices of a window, and the chains that deliver the opposite bit, in slice weights.
#[derive(Clone, Copy)]
pub struct Settings {
    pub cells: usize,
    pub taps: u64,
    pub limit: usize,
    pub invert: u64,
}

// The slice of a state under the first 64 masks: the one place where a slice is formed.
pub fn slice(settings: Settings, masks: &[u64], state: u64) -> u64
    ensures { result ≡ (machine settings (take 64 masks.now)).slice state }
{
    machine_chains::slice(masks, state) ^ settings.invert
}

// Cause 2 of a call with settings: its chains, or an inverted chain that is none of them.
pub fn bad_chains(settings: Settings, masks: &[u64]) -> bool
    ensures { result ≡ bad_chains_of settings masks.now }
{
    if machine_chains::bad_chains(settings.cells, masks) {
        return true;
    }
    words_gf2::beyond(masks.len(), settings.invert)
}
