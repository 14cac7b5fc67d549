// The causes of refusal, with what each carries, and the number and value of document 01's refusal sheet.
#![tactic(auto)]

ghost use Rattle.std.specs.Prelude.{◌≡◌};
ghost use Rattle.refusal_causes.specs.Sheet.{line_of, refusal_of};

#[derive(Clone, Copy)]
pub enum Cause {
    // The register: its cells or its taps.
    Register,
    // The chains: their number or a mask.
    Chains,
    // A length or a number of slices or seeds.
    Lengths,
    // A test slice that is not well-formed, or two lists unequally long.
    TestSlice,
    // A stop slice that is not well-formed.
    StopSlice,
    // No stop slice: the fully specified slices take up all patterns.
    AllTaken,
    // No state covers the window.
    NoSeed,
    // The set can't be cut: slices in the longest start that can be.
    NoCutting(usize),
    // The output buffer is too short: entries needed.
    NoSpace(usize),
    // A seed with a bit at or above cells: its place.
    SeedBeyond(usize),
    // A seed whose slice 0 shows the stop: its place.
    SeedAtStop(usize),
    // A seed with no stop in its slices up to the limit: its place.
    SeedEndless(usize),
    // A line out of form or out of order, or text that ends early: the line.
    Line(usize),
    // The expanded total differs from slices: the total found.
    Total(usize),
}

// A line of the refusal sheet: the cause's number, and what is returned beside it.
#[derive(Clone, Copy)]
pub struct Refusal {
    pub number: usize,
    pub value: usize,
}

// A line of the sheet.
fn sheet_line(number: usize, value: usize) -> Refusal
    ensures { result ≡ line_of number value }
{
    Refusal { number, value }
}

// The number and value of a cause, as the refusal sheet has them.
impl From<Cause> for Refusal {
    ghost from_gives = { λ cause refusal. refusal ≡ refusal_of cause };

    fn from(cause: Cause) -> Refusal {
        match cause {
            Cause::Register => sheet_line(1, 0),
            Cause::Chains => sheet_line(2, 0),
            Cause::Lengths => sheet_line(3, 0),
            Cause::TestSlice => sheet_line(4, 0),
            Cause::StopSlice => sheet_line(5, 0),
            Cause::AllTaken => sheet_line(6, 0),
            Cause::NoSeed => sheet_line(7, 0),
            Cause::NoCutting(slices) => sheet_line(8, slices),
            Cause::NoSpace(entries) => sheet_line(9, entries),
            Cause::SeedBeyond(place) => sheet_line(10, place),
            Cause::SeedAtStop(place) => sheet_line(11, place),
            Cause::SeedEndless(place) => sheet_line(12, place),
            Cause::Line(line) => sheet_line(13, line),
            Cause::Total(found) => sheet_line(14, found),
        }
    }
}
