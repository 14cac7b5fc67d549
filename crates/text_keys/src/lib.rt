// The keys of lines (document 01, "Sheet and seed list": "Text lines are key=value"). A key is a row of one table: how its lines are spelt, and what bounds them.
#![tactic(auto)]

ghost use Rattle.std.specs.Prelude.{◌≡◌, ◌<◌};
ghost use Rattle.text_keys.specs.Keys.{count, row_at, row_of, spelling, bounds, rank as rank_of};

// The keys of the lines.
#[derive(Clone, Copy, PartialEq, Eq)]
pub enum Key {
    Cells,
    Taps,
    Chains,
    Chain,
    Invert,
    Window,
    Depth,
    Slice,
    Stop,
    Slices,
    Seed,
}

// How the value of a key is written.
#[derive(Clone, Copy)]
pub enum Notation {
    Decimal,
    Hexadecimal,
    Chainwise,
}

// Which numbers a line may have.
#[derive(Clone, Copy)]
pub enum Range {
    // From the first to the second.
    Between(usize, usize),
    // Taps of the register with the cells that were read.
    Taps,
    // A mask of its cells.
    Mask,
    // A mask of the chains that were read.
    Inverted,
    // Some specified position.
    Specified,
    // All.
    Any,
}

// Why a line is refused: its form or its order, or its own number's range.
#[derive(Clone, Copy)]
pub enum LineCause {
    // Cause 13: out of form or out of order.
    Form,
    // Cause 1: cells or taps.
    Register,
    // Cause 2: chains, a mask, or inverted chains.
    Chains,
    // Cause 3: window, depth or slices, or a slice or seed line too many.
    Lengths,
    // Cause 5: a stop slice with no specified position.
    StopSlice,
}

// How the lines of a key are spelt: the key, its name with spaces behind it, the bytes of the name, how the value is written, and the most bytes of a line, its line feed included.
#[derive(Clone, Copy)]
pub struct Spelling(pub Key, pub [u8; 7], pub usize, pub Notation, pub usize);

// What bounds the lines of a key: how many may stand in a row, which numbers they may have, and the cause of what is beyond.
#[derive(Clone, Copy)]
pub struct Bounds(pub usize, pub Range, pub LineCause);

// The greatest limit of a window.
const MOST_LIMIT: usize = 256;

// The greatest depth of a cube.
const MOST_DEPTH: usize = 256;

// How many keys there are.
pub const COUNT: usize = 11;

const SPELLINGS: [Spelling; COUNT] = [
    Spelling(Key::Cells, *b"cells= ", 6, Notation::Decimal, 80),
    Spelling(Key::Taps, *b"taps=  ", 5, Notation::Hexadecimal, 80),
    Spelling(Key::Chains, *b"chains=", 7, Notation::Decimal, 80),
    Spelling(Key::Chain, *b"chain= ", 6, Notation::Hexadecimal, 80),
    Spelling(Key::Invert, *b"invert=", 7, Notation::Hexadecimal, 80),
    Spelling(Key::Window, *b"window=", 7, Notation::Decimal, 80),
    Spelling(Key::Depth, *b"depth= ", 6, Notation::Decimal, 80),
    Spelling(Key::Slice, *b"slice= ", 6, Notation::Chainwise, 80),
    Spelling(Key::Stop, *b"stop=  ", 5, Notation::Chainwise, 80),
    Spelling(Key::Slices, *b"slices=", 7, Notation::Decimal, 80),
    Spelling(Key::Seed, *b"seed=  ", 5, Notation::Hexadecimal, 80),
];

const BOUNDS: [Bounds; COUNT] = [
    Bounds(1, Range::Between(1, 64), LineCause::Register),
    Bounds(1, Range::Taps, LineCause::Register),
    Bounds(1, Range::Between(1, 64), LineCause::Chains),
    Bounds(64, Range::Mask, LineCause::Chains),
    Bounds(1, Range::Inverted, LineCause::Chains),
    Bounds(1, Range::Between(1, MOST_LIMIT), LineCause::Lengths),
    Bounds(1, Range::Between(1, MOST_DEPTH), LineCause::Lengths),
    Bounds(2048, Range::Any, LineCause::Lengths),
    Bounds(1, Range::Specified, LineCause::StopSlice),
    Bounds(1, Range::Between(1, 2048), LineCause::Lengths),
    Bounds(2048, Range::Any, LineCause::Lengths),
];

// The place of a key in the table.
pub fn rank(key: Key) -> usize
    ensures { result ≡ rank_of key }
{
    match key {
        Key::Cells => 0,
        Key::Taps => 1,
        Key::Chains => 2,
        Key::Chain => 3,
        Key::Invert => 4,
        Key::Window => 5,
        Key::Depth => 6,
        Key::Slice => 7,
        Key::Stop => 8,
        Key::Slices => 9,
        Key::Seed => 10,
    }
}

// How the lines of the key at a place of the table are spelt.
// An inner function: its callers show that there is such a place.
pub fn spelling_at(i: usize) -> Spelling
    requires { i < count }
    ensures { result ≡ spelling (row_at i) }
{
    SPELLINGS[i]
}

// How the lines of a key are spelt.
pub fn spelling_of(key: Key) -> Spelling
    ensures { result ≡ spelling (row_of key) }
{
    spelling_at(rank(key))
}

// What bounds the lines of the key at a place of the table.
fn bounds_at(i: usize) -> Bounds
    requires { i < count }
    ensures { result ≡ bounds (row_at i) }
{
    BOUNDS[i]
}

// What bounds the lines of a key.
pub fn bounds_of(key: Key) -> Bounds
    ensures { result ≡ bounds (row_of key) }
{
    bounds_at(rank(key))
}
