// How the reading of a text ends (document 01, "Sheet and seed list"): at the first refused line, or at the end of the text.
#![tactic(auto)]

ghost use Rattle.std.specs.Prelude.{◌≡◌};
ghost use Rattle.text_ending.specs.Ending.{line_number, refused_at, refusal_of_line, end_of};

use refusal_causes::Refusal;
use text_keys::LineCause;
use text_lines::Line;
use text_order::Kind;
use text_place::Place;

// The number of a line's cause.
fn number_of(cause: LineCause) -> usize
    ensures { result ≡ line_number cause }
{
    match cause {
        LineCause::Form => 13,
        LineCause::Register => 1,
        LineCause::Chains => 2,
        LineCause::Lengths => 3,
        LineCause::StopSlice => 5,
    }
}

// The refusal of a line: the number of its cause, and the line.
pub fn refused_at(cause: LineCause, n: usize) -> Refusal
    ensures { result ≡ refused_at cause n }
{
    Refusal {
        number: number_of(cause),
        value: n,
    }
}

// The refusal of a refused line.
pub fn refusal_of_line(line: Line, n: usize) -> Refusal
    ensures { result ≡ refusal_of_line line n }
{
    match line {
        Line::Said(_) => refused_at(LineCause::Form, n),
        Line::Refused(cause) => refused_at(cause, n),
    }
}

// The end of a text that ends where the line n would stand.
pub fn end_of(kind: Kind, place: Place, n: usize) -> Result<(), Refusal>
    ensures { result ≡ end_of kind place n }
{
    if text_order::may_end(kind, place) {
        Ok(())
    } else {
        Err(refused_at(LineCause::Form, n))
    }
}
