// The reading of a text, line by line (document 01, "Sheet and seed list"): it stops at the first refused line.
#![tactic(auto)]

ghost use Rattle.std.specs.Prelude.{◌≡◌};
ghost use Rattle.std.proofs.lemmas.List.Edits.{sets};
ghost use Rattle.text_entries.specs.Flat.{flat};
ghost use Rattle.text_reading.specs.Reading.{reading_of};

use refusal_causes::Refusal;
use text_keys::{Key, LineCause};
use text_lines::Line;
use text_order::Kind;
use text_place::Place;

// Reads a text. The entries of its lines go into the list one after another, up to the first refused line and as far as the list goes.
pub fn scan(kind: Kind, text: &[u8], entries: &mut [u64]) -> Result<(), Refusal>
    ensures answer { result ≡ (reading_of kind text.now).end }
    ensures entries { entries.new ≡ sets entries.old 0 (flat (reading_of kind text.now).entries) }
{
    let mut place = Place {
        last: Key::Cells,
        run: 0,
        cells: 0,
        chains: 0,
    };
    let mut n: usize = 1;
    let mut at: usize = 0;
    let mut next: usize = 0;
    // Not a `for`: it moves by the length of a line.
    while at < text.len() {
        let end = text_split::line_end(text, at);
        if text.len() <= end {
            return Err(text_ending::refused_at(LineCause::Form, n));
        }
        let line = text_ranges::saying(kind, place, &text[at..end]);
        let Line::Said(entry) = line else {
            return Err(text_ending::refusal_of_line(line, n));
        };
        next = text_entries::keep(entry, entries, next);
        let key = entry.key;
        place = text_place::moved(place, key, entry.first);
        at = end + 1;
        n += 1;
    }
    text_ending::end_of(kind, place, n)
}
