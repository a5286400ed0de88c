// The texts of refusals: a line for each number that a call of the library answers, 0 for none, and one for every other number.
//
// A text is ASCII, without a line feed or a terminator. It is written into output that a caller lends; where the output is shorter than the
// text nothing is written, and the answer is the refusal of output too short, with the bytes needed.
#![tactic(auto)]

ghost use Rattle.std.specs.Prelude.{◌≡◌};
ghost use Rattle.answers.specs.Answer.{given};
ghost use Rattle.answers.specs.Lent.{Lent};
ghost use Rattle.answers.specs.Refusals.{number_of};
ghost use Rattle.refusals.specs.Texts.{refusal_text};

use answers::{Reason, Refusal};

// A text at the front of the output.
fn write(out: &mut [u8], text: &[u8]) -> Result<usize, Refusal>
    ensures { Lent out.old (given text.now) out.new result }
{
    let length = text.len();
    if out.len() < length {
        return Err(Reason::OutputShort.at(length as u64));
    }
    lists::put_bytes(out, 0, text);
    Ok(length)
}

// The text of a reason.
fn text_of(reason: Reason) -> &'static [u8]
    ensures { result.now ≡ refusal_text (number_of reason) }
{
    match reason {
        Reason::NotAllowed => b"a byte is unknown or not allowed there",
        Reason::CutShort => b"the file ends too soon",
        Reason::BytesBehind => b"bytes follow the end of the file's commands",
        Reason::OverLimit => b"one more than a limit",
        Reason::Undeclared => b"undeclared, or a value or relation out of range",
        Reason::OutOfRange => b"an operand is out of range",
        Reason::NamedTwice => b"an effect or a variable is named twice",
        Reason::OutputShort => b"the output is too short",
        Reason::OverMillion => b"the expansion is over 1,000,000 steps",
        Reason::PlanLength => b"the plan's length is odd or too large",
        Reason::NoAction => b"no such action",
        Reason::DoesNotApply => b"the action does not apply",
        Reason::GoalNotMet => b"the goal is not met",
        Reason::SumWithoutTerm => b"a sum has no term",
    }
}

// The text of an answer's number. The only refusal is that of output too short.
pub fn write_text(number: u32, out: &mut [u8]) -> Result<usize, Refusal>
    ensures { Lent out.old (given (refusal_text number)) out.new result }
{
    match Reason::try_from(number) {
        Ok(reason) => write(out, text_of(reason)),
        Err(_) if number == 0 => write(out, b"no refusal"),
        Err(_) => write(out, b"no such refusal number"),
    }
}
