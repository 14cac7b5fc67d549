// Numbers at the boundary: the settings that C and Rust hand in.
#![tactic(auto)]

ghost use Rattle.std.specs.Prelude.{◌≡◌};
ghost use Rattle.face_values.specs.Values.{settings_of, test_slice_of};

use machine_slices::TestSlice;

// The register and the settings of a call, as C and Rust hand them in: its cells and taps, the most slices of a window, and the inverted chains, in slice weights. A setting more is a field more.
#[repr(C)]
#[derive(Clone, Copy)]
pub struct Settings {
    pub cells: usize,
    pub taps: u64,
    pub limit: usize,
    pub invert: u64,
}

// The settings of a call: cells, taps, limit and inverted chains as they are handed in, not yet judged.
impl From<Settings> for machine_settings::Settings {
    ghost from_gives = { λ s t. t ≡ settings_of s };

    fn from(settings: Settings) -> machine_settings::Settings {
        machine_settings::Settings {
            cells: settings.cells,
            taps: settings.taps,
            limit: settings.limit,
            invert: settings.invert,
        }
    }
}

// The test slice or stop slice of two numbers, not yet judged.
pub fn test_slice_of(specified: u64, bits: u64) -> TestSlice
    ensures { result ≡ test_slice_of specified bits }
{
    TestSlice { specified, bits }
}
