// Inverted chains (document 02, R-4): settings and test slices as the search sees them, with the specified bits at inverted chains flipped and no chain inverted.
#![tactic(auto)]

ghost use Rattle.std.specs.Prelude.{◌++◌, ◌≡◌, ◌≤◌, drop, length};
ghost use Rattle.machine_inversion.specs.Inversion.{flipped, flipped_bits, upright as upright_of};

use machine_settings::Settings;
use machine_slices::TestSlice;

// The settings with no chain inverted.
pub fn upright(settings: Settings) -> Settings
    ensures { result ≡ upright_of settings }
{
    Settings {
        cells: settings.cells,
        taps: settings.taps,
        limit: settings.limit,
        invert: machine_settings::NONE_INVERTED,
    }
}

// A test slice or stop slice with its specified bits at inverted chains flipped.
pub fn flip(invert: u64, test: TestSlice) -> TestSlice
    ensures { result ≡ flipped invert test }
{
    TestSlice {
        specified: test.specified,
        bits: test.bits ^ (invert & test.specified),
    }
}

// The bits of test slices, flipped alike, written to the front of a buffer; every other entry stays as it was.
// An inner function: its callers show that the buffer has an entry for each.
pub fn flip_bits(invert: u64, specified: &[u64], bits: &[u64], out: &mut [u64])
    requires { (length specified.now ≡ length bits.now) × (length bits.now ≤ length out.old) }
    ensures { out.new ≡ flipped_bits invert specified.now bits.now ++ drop (length bits.now) out.old }
{
    for i in 0..bits.len() {
        let test = TestSlice {
            specified: specified[i],
            bits: bits[i],
        };
        out[i] = flip(invert, test).bits;
    }
}
