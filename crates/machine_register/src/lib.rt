// The shift register (document 01, "Register and chains"): the step, and the check behind cause 1.
#![tactic(auto)]

ghost use Rattle.std.specs.Prelude.{◌≡◌};
ghost use Rattle.machine_register.specs.Register.{bad_register, made_of, step_of};

use refusal_causes::Cause;

// A register. The constructor judges cells and taps; the step is total without that.
#[derive(Clone, Copy)]
pub struct Register {
    pub cells: usize,
    pub taps: u64,
}

impl Register {
    // The most cells.
    pub const MOST_CELLS: usize = 64;
    // The longest window, in slices.
    pub const LONGEST_WINDOW: usize = 256;

    // The register of these cells and taps, where they are lawful.
    pub fn new(cells: usize, taps: u64) -> Result<Register, Cause>
        ensures { result ≡ made_of cells taps }
    {
        if bad_register(cells, taps) {
            return Err(Cause::Register);
        }
        Ok(Register { cells, taps })
    }

    // One step. Twice a state need not fit a word, so its top cell goes out first.
    pub fn step(self, state: u64) -> u64
        ensures { result ≡ step_of self state }
    {
        let cells = self.cells;
        let next = state % 9223372036854775808 * 2 + words_gf2::odd(state, self.taps);
        if cells < Register::MOST_CELLS {
            next % (1u64 << cells)
        } else {
            next
        }
    }
}

// Whether cause 1 holds: cells not 1 to 64, taps beyond the cells, or the last cell not tapped.
pub fn bad_register(cells: usize, taps: u64) -> bool
    ensures { result ≡ bad_register cells taps }
{
    if !words_bounded::within(1, Register::MOST_CELLS, cells) {
        return true;
    }
    if words_gf2::beyond(cells, taps) {
        return true;
    }
    words_gf2::digit(taps, cells - 1) == 0
}
