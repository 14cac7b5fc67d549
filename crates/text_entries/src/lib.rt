// What the lines of a text say, kept in one list of numbers (document 01, "Sheet and seed list"): for each line the rank of its key and its two numbers, one line after another. What a text says for a key is picked from it afterwards.
#![tactic(auto)]

ghost use Rattle.std.specs.Prelude.{◌≡◌, length, get_or, set};
ghost use Rattle.std.proofs.lemmas.List.Edits.{sets};
ghost use Rattle.text_entries.specs.Flat.{words, past, offset as offset_of, entries_in};
ghost use Rattle.text_entries.specs.Said.{picked, settings_of};

use machine_settings::{NONE_INVERTED, Settings};
use text_keys::Key;
use text_lines::Entry;

// The limit of windows without a window line.
const DEFAULT_LIMIT: u64 = machine_settings::DEFAULT_LIMIT as u64;

// Which of the two numbers of a line.
#[derive(Clone, Copy)]
pub enum Part {
    First,
    Second,
}

// Stores a number, where there is space.
fn store(list: &mut [u64], i: usize, v: u64)
    ensures { list.new ≡ set list.old i v }
{
    if i < list.len() {
        list[i] = v;
    }
}

// Keeps an entry from a place of the list on, as far as the list goes. The answer is the next place.
pub fn keep(entry: Entry, list: &mut [u64], at: usize) -> usize
    ensures next { result ≡ past (length list.old) at }
    ensures list { list.new ≡ sets list.old at (words entry) }
{
    if list.len() <= at {
        return at;
    }
    let key = entry.key;
    store(list, at, text_keys::rank(key) as u64);
    store(list, at + 1, entry.first);
    store(list, at + 2, entry.second);
    at + 3
}

// Where a number of a line stands, after the line's first word.
fn offset(part: Part) -> usize
    ensures { result ≡ offset_of part }
{
    match part {
        Part::First => 1,
        Part::Second => 2,
    }
}

// Picks the numbers of the lines with a key, in order, into a list as far as it goes. The answer is how many there are.
pub fn numbers(entries: &[u64], key: Key, part: Part, list: &mut [u64]) -> usize
    ensures count { result ≡ length (picked key part (entries_in entries.now)) }
    ensures list { list.new ≡ sets list.old 0 (picked key part (entries_in entries.now)) }
{
    let mut count = 0;
    let mut i = 0;
    // Not a `for`: an entry has three numbers, and what is left behind the last one is none.
    while 3 <= entries.len() - i {
        if entries[i] == text_keys::rank(key) as u64 {
            store(list, count, entries[i + offset(part)]);
            count += 1;
        }
        i += 3;
    }
    count
}

// The number of the first line with a key, or another where there is no such line.
pub fn number(entries: &[u64], key: Key, part: Part, absent: u64) -> u64
    ensures { result ≡ get_or (picked key part (entries_in entries.now)) 0 absent }
{
    let mut one = [0u64; 1];
    one[0] = absent;
    numbers(entries, key, part, &mut one);
    one[0]
}

// The settings of the call that the lines say.
pub fn settings(entries: &[u64]) -> Settings
    ensures { result ≡ settings_of (entries_in entries.now) }
{
    let cells = number(entries, Key::Cells, Part::First, 0);
    let taps = number(entries, Key::Taps, Part::First, 0);
    let limit = number(entries, Key::Window, Part::First, DEFAULT_LIMIT);
    let invert = number(entries, Key::Invert, Part::First, NONE_INVERTED);
    Settings {
        cells: cells as usize,
        taps,
        limit: limit as usize,
        invert,
    }
}
