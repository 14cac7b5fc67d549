// The entries on texts, by the kind of text: a sheet to its seed list, a seed list to its slices.
#![tactic(auto)]

ghost use Rattle.std.specs.Prelude.{◌≡◌};
ghost use Rattle.text_calls.specs.Texts.{call_of};
ghost use Rattle.text_meaning.specs.Calls.{TextMeaning};
ghost use Rattle.face_answers.specs.Answers.{text_answer_of};

use face_answers::TextAnswer;
use text_order::Kind;

// The reply to a text, written into the buffer: the first refused line, then the checks over the whole, then 9 with the bytes needed and the seeds or slices that enough space would have given.
pub fn answer_text(kind: Kind, text: &[u8], out: &mut [u8]) -> TextAnswer
    ensures answer { result ≡ text_answer_of (call_of kind text.now out.old).answer }
    ensures buffer { out.new ≡ (call_of kind text.now out.old).buffer }
    ensures meaning { TextMeaning kind text.now out.old (call_of kind text.now out.old) }
{
    face_answers::text_answer_of(text_calls::call(kind, text, out))
}
