// What one line of a text says by its form (document 01, "Sheet and seed list"): a number or a slice for its key, or a refusal.
#![tactic(auto)]

ghost use Rattle.std.specs.Prelude.{◌≡◌, drop};
ghost use Rattle.text_lines.specs.Form.{numbered as numbered_of, sliced as sliced_of, characters as characters_of, valued as valued_of, keyed as keyed_of, formed as formed_of};

use machine_slices::TestSlice;
use text_keys::{Key, LineCause, Notation, Spelling};

// What an accepted line says: its key, and its number and 0 or its slice's two numbers.
#[derive(Clone, Copy)]
pub struct Entry {
    pub key: Key,
    pub first: u64,
    pub second: u64,
}

// What a line says: its entry, or the cause of its refusal.
#[derive(Clone, Copy)]
pub enum Line {
    Said(Entry),
    Refused(LineCause),
}

// The number for its key.
fn numbered(key: Key, numeral: Option<u64>) -> Line
    ensures { result ≡ numbered_of key «numeral» }
{
    match numeral {
        Some(v) => Line::Said(Entry {
            key,
            first: v,
            second: 0,
        }),
        None => Line::Refused(LineCause::Form),
    }
}

// The slice for its key.
fn sliced(key: Key, said: Option<TestSlice>) -> Line
    ensures { result ≡ sliced_of key said }
{
    match said {
        Some(slice) => Line::Said(Entry {
            key,
            first: slice.specified,
            second: slice.bits,
        }),
        None => Line::Refused(LineCause::Form),
    }
}

// The slice for its key, where the value has one character for each chain.
fn characters(chains: usize, key: Key, value: &[u8]) -> Line
    ensures { result ≡ characters_of chains key value.now }
{
    if machine_chains::MOST_CHAINS < value.len() {
        return Line::Refused(LineCause::Form);
    }
    if value.len() != chains {
        return Line::Refused(LineCause::Form);
    }
    sliced(key, text_characters::slice_of(value))
}

// What a value says for its key.
fn valued(chains: usize, key: Key, value: &[u8]) -> Line
    ensures { result ≡ valued_of chains key value.now }
{
    let Spelling(_, _, _, notation, _) = text_keys::spelling_of(key);
    match notation {
        Notation::Decimal => numbered(key, text_numbers::number(10, 4, value)),
        Notation::Hexadecimal => numbered(key, text_numbers::number(16, 16, value)),
        Notation::Chainwise => characters(chains, key, value),
    }
}

// The bytes of a line after the first n, or none.
fn tail(line: &[u8], n: usize) -> &[u8]
    ensures { result.now ≡ drop n line.now }
{
    if n <= line.len() {
        &line[n..]
    } else {
        &line[..0]
    }
}

// What a line with a key says.
fn keyed(chains: usize, key: Key, line: &[u8]) -> Line
    ensures { result ≡ keyed_of chains key line.now }
{
    let Spelling(_, _, size, _, longest) = text_keys::spelling_of(key);
    if longest <= line.len() {
        return Line::Refused(LineCause::Form);
    }
    valued(chains, key, tail(line, size))
}

// What a line, without its line feed, says by its form.
pub fn formed(chains: usize, line: &[u8]) -> Line
    ensures { result ≡ formed_of chains line.now }
{
    match text_key_of::key_of(line) {
        Some(key) => keyed(chains, key, line),
        None => Line::Refused(LineCause::Form),
    }
}
