// What a line says at a place (document 01, "Sheet and seed list"): its key must be one that may stand there, and its own number in range.
#![tactic(auto)]

ghost use Rattle.std.specs.Prelude.{◌≡◌};
ghost use Rattle.text_ranges.specs.Ranges.{outside as outside_of, out_of_range, tested as tested_of, saying as saying_of};

use text_keys::{Bounds, Key, LineCause, Range};
use text_lines::{Entry, Line};
use text_order::Kind;
use text_place::Place;

// Whether a number is outside a range.
fn outside(place: Place, range: Range, v: u64) -> bool
    ensures { result ≡ outside_of place range v }
{
    match range {
        Range::Between(least, most) => !words_bounded::within(least, most, v as usize),
        Range::Taps => machine_register::bad_register(place.cells, v),
        Range::Mask => machine_chains::bad_mask(place.cells, v),
        Range::Inverted => words_gf2::beyond(place.chains, v),
        Range::Specified => v == 0,
        Range::Any => false,
    }
}

// Whether a line is out of range: one too many of its key, or its own number.
fn out_of_range(place: Place, key: Key, v: u64) -> bool
    ensures { result ≡ out_of_range place key v }
{
    let Bounds(most, range, _) = text_keys::bounds_of(key);
    if most <= text_place::run_of(place, key) {
        return true;
    }
    outside(place, range, v)
}

// What a line says at a place, where it says this by its form.
fn tested(kind: Kind, place: Place, entry: Entry) -> Line
    ensures { result ≡ tested_of kind place entry }
{
    let key = entry.key;
    if !text_order::in_order(kind, place, key) {
        return Line::Refused(LineCause::Form);
    }
    if out_of_range(place, key, entry.first) {
        let Bounds(_, _, cause) = text_keys::bounds_of(key);
        return Line::Refused(cause);
    }
    Line::Said(entry)
}

// What a line, without its line feed, says at a place.
pub fn saying(kind: Kind, place: Place, line: &[u8]) -> Line
    ensures { result ≡ saying_of kind place line.now }
{
    let said = text_lines::formed(place.chains, line);
    let Line::Said(entry) = said else {
        return said;
    };
    tested(kind, place, entry)
}
