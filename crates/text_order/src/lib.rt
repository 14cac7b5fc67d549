// The order of the lines of a text (document 01, "Sheet and seed list"): which keys may stand at a place. A set of keys is a word, with the key of rank r at bit r.
#![tactic(auto)]

ghost use Rattle.std.specs.Prelude.{◌≡◌, ◌<◌};
ghost use Rattle.text_keys.specs.Keys.{count, row_at};
ghost use Rattle.text_order.specs.Order.{after as after_of, missing as missing_of, may_stand, in_order, last_keys, may_end};
ghost use Rattle.text_order.specs.Sets.{set_of, sets_of};

use text_keys::Key;
use text_place::Place;

// The kinds of text that are read.
#[derive(Clone, Copy)]
pub enum Kind {
    Sheet,
    SeedList,
}

const CELLS: u64 = 1 << 0;

const TAPS: u64 = 1 << 1;

const CHAINS: u64 = 1 << 2;

const CHAIN: u64 = 1 << 3;

const INVERT: u64 = 1 << 4;

const WINDOW: u64 = 1 << 5;

const DEPTH: u64 = 1 << 6;

const SLICE: u64 = 1 << 7;

const STOP: u64 = 1 << 8;

const SLICES: u64 = 1 << 9;

const SEED: u64 = 1 << 10;

// The keys that may stand after the lines of a key, in a sheet and in a seed list; a row a key, as in the table of keys.
#[derive(Clone, Copy)]
pub struct Followers(pub u64, pub u64);

const AFTER: [Followers; text_keys::COUNT] = [
    Followers(TAPS, TAPS),
    Followers(CHAINS, CHAINS),
    Followers(CHAIN, CHAIN),
    Followers(INVERT | WINDOW | DEPTH, INVERT | WINDOW | STOP),
    Followers(WINDOW | DEPTH, WINDOW | STOP),
    Followers(DEPTH, STOP),
    Followers(SLICE, 0),
    Followers(SLICE, 0),
    Followers(0, SLICES),
    Followers(0, SEED),
    Followers(0, SEED),
];

// The keys that may stand after the lines of the key at a place of the table.
fn after_at(i: usize) -> Followers
    requires { i < count }
    ensures { result ≡ sets_of (row_at i).key }
{
    AFTER[i]
}

// The keys that may stand after the lines of a key.
fn after(kind: Kind, key: Key) -> u64
    ensures { result ≡ set_of (after_of kind key) }
{
    let sets = after_at(text_keys::rank(key));
    match kind {
        Kind::Sheet => sets.0,
        Kind::SeedList => sets.1,
    }
}

// Whether chain lines are missing.
fn missing(place: Place) -> bool
    ensures { result ≡ missing_of place }
{
    place.last == Key::Chain && place.run < place.chains
}

// The keys that may stand at a place.
fn may_stand(kind: Kind, place: Place) -> u64
    ensures { result ≡ set_of (may_stand kind place) }
{
    if place.run == 0 {
        return CELLS;
    }
    if missing(place) {
        return CHAIN;
    }
    let last = place.last;
    after(kind, last)
}

// Whether a line with a key may stand at a place.
pub fn in_order(kind: Kind, place: Place, key: Key) -> bool
    ensures { result ≡ in_order kind place key }
{
    words_gf2::digit(may_stand(kind, place), text_keys::rank(key)) == 1
}

// The keys after whose lines a text may end.
fn last_keys(kind: Kind) -> u64
    ensures { result ≡ set_of (last_keys kind) }
{
    match kind {
        Kind::Sheet => DEPTH | SLICE,
        Kind::SeedList => SLICES | SEED,
    }
}

// Whether a text may end at a place.
pub fn may_end(kind: Kind, place: Place) -> bool
    ensures { result ≡ may_end kind place }
{
    let last = place.last;
    words_gf2::digit(last_keys(kind), text_keys::rank(last)) == 1
}
