// How far a text is read (document 01, "Sheet and seed list"): the place after a line.
#![tactic(auto)]

ghost use Rattle.std.specs.Prelude.{◌≡◌, ◌+◌, ◌<◌, ◌^◌};
ghost use Rattle.text_place.specs.Places.{run_of, number_if, moved as moved_of};

use text_keys::Key;

// How far a text is read: the key of the last line, how many lines with it stand in a row, and the cells and chains that were read. Before the first line the key is that of the first line, with a run of 0.
#[derive(Clone, Copy)]
pub struct Place {
    pub last: Key,
    pub run: usize,
    pub cells: usize,
    pub chains: usize,
}

// How many lines with a key stand in a row before a place.
pub fn run_of(place: Place, key: Key) -> usize
    ensures { result ≡ run_of place key }
{
    if place.last == key { place.run } else { 0 }
}

// The number of a line where it is asked for, or the one before.
fn number_if(asked: bool, v: u64, before: usize) -> usize
    ensures { result ≡ number_if asked v before }
{
    if asked { v as usize } else { before }
}

// The place after a line with a key and a number.
// An inner function: its callers show that the run and one line more are a number of the machine.
pub fn moved(place: Place, key: Key, v: u64) -> Place
    requires { place.run + 1 < 2 ^ 64 }
    ensures { result ≡ moved_of place key v }
{
    let run = run_of(place, key) + 1;
    let cells = number_if(key == Key::Cells, v, place.cells);
    let chains = number_if(key == Key::Chains, v, place.chains);
    Place {
        last: key,
        run,
        cells,
        chains,
    }
}
