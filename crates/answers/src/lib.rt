// What a call answers: its result, or why it is refused and where.
//
// A refusal is the error of every `Result` of the library. Document 01 numbers the reasons; `specs/Refusals` says the numbers, and what an
// answer is in the words of the definitions (specs/Answer).
#![tactic(auto)]

ghost use Rattle.std.specs.Prelude.{◌≡◌, Some};
ghost use Rattle.answers.specs.Refusals.{number_of, Numbered, refusal_at, printed};

use std::error::Error;
use std::fmt;

// Why a call is refused, in the order of document 01's numbers, which begin at 1.
#[derive(Clone, Copy, Debug, PartialEq, Eq)]
pub enum Reason {
    NotAllowed,
    CutShort,
    BytesBehind,
    OverLimit,
    Undeclared,
    OutOfRange,
    NamedTwice,
    OutputShort,
    OverMillion,
    PlanLength,
    NoAction,
    DoesNotApply,
    GoalNotMet,
    SumWithoutTerm,
}

impl Reason {
    // Its number in document 01.
    pub fn number(self) -> u8
        ensures { result ≡ number_of self }
    {
        self as u8 + 1
    }

    // The refusal for it at a place.
    pub fn at(self, place: u64) -> Refusal
        ensures { result ≡ refusal_at self place }
    {
        Refusal {
            reason: self,
            place,
        }
    }
}

// A number that is no refusal's.
#[derive(Clone, Copy, Debug, PartialEq, Eq)]
pub struct UnknownNumber(pub u32);

impl TryFrom<u32> for Reason {
    type Error = UnknownNumber;

    ghost try_from_gives = { Numbered };

    fn try_from(number: u32) -> Result<Self, UnknownNumber> {
        match number {
            1 => Ok(Reason::NotAllowed),
            2 => Ok(Reason::CutShort),
            3 => Ok(Reason::BytesBehind),
            4 => Ok(Reason::OverLimit),
            5 => Ok(Reason::Undeclared),
            6 => Ok(Reason::OutOfRange),
            7 => Ok(Reason::NamedTwice),
            8 => Ok(Reason::OutputShort),
            9 => Ok(Reason::OverMillion),
            10 => Ok(Reason::PlanLength),
            11 => Ok(Reason::NoAction),
            12 => Ok(Reason::DoesNotApply),
            13 => Ok(Reason::GoalNotMet),
            14 => Ok(Reason::SumWithoutTerm),
            _ => Err(UnknownNumber(number)),
        }
    }
}

// A refusal: the reason, and the place that document 01 gives it.
#[derive(Clone, Copy, Debug, PartialEq, Eq)]
pub struct Refusal {
    pub reason: Reason,
    pub place: u64,
}

impl fmt::Display for Refusal {
    ghost output = { λ r. Some (printed r) };

    fn fmt<W: fmt::Write>(&self, f: &mut fmt::Formatter<W>) -> fmt::Result {
        write!(f, "refused {} {}", self.reason.number(), self.place)
    }
}

impl Error for Refusal {}
