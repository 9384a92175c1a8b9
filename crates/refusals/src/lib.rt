// Why a call is refused: a kind for each of document 01's numbers 1 to 7, and the two numbers that
// the caller is given.
#![tactic(auto)]

ghost use Rattle.std.specs.Prelude.{◌≡◌};
ghost use Rattle.refusals.specs.Refusals.{number_of, refused_as, told};

use rules::Answer;

// Why a call is refused.
#[derive(Clone, Copy, Debug, PartialEq, Eq)]
pub enum Refusal {
    // A buffer that was lent is bad, or has another length.
    Buffer,
    // A number is out of range.
    Range,
    // The time is below the last, or too high.
    Time,
    // The service does not stand so.
    Standing,
    // The AT line is bad.
    Line,
    // The journal is full.
    Full,
    // The image or its journal is bad.
    Image,
}

impl Refusal {
    // Document 01's number.
    pub fn number(self) -> u32
        ensures { result ≡ number_of self }
    {
        match self {
            Refusal::Buffer => 1,
            Refusal::Range => 2,
            Refusal::Time => 3,
            Refusal::Standing => 4,
            Refusal::Line => 5,
            Refusal::Full => 6,
            Refusal::Image => 7,
        }
    }
}

impl From<Refusal> for Answer {
    ghost from_gives = { λ why answer. answer ≡ refused_as why };

    fn from(why: Refusal) -> Answer {
        Answer {
            number: why.number(),
            second: 0,
        }
    }
}

// The two numbers of a call that has nothing to say.
pub const DONE: Answer = Answer {
    number: 0,
    second: 0,
};

// The two numbers of a call that answers, or is refused.
pub fn told(found: Result<Answer, Refusal>) -> Answer
    ensures { result ≡ told found }
{
    match found {
        Ok(answer) => answer,
        Err(why) => why.into(),
    }
}
