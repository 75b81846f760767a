// What the calls on a round answer.
ghost use Rattle.std.specs.Prelude.{◌≡◌, Some};
ghost use Rattle.round.specs.Replies.{refusal_number};
ghost use Rattle.round.specs.Refusals.{refusal_words};

use std::error::Error;
use std::fmt;

// Why a call was refused.
#[derive(Clone, Copy, PartialEq, Eq, Debug)]
pub enum Refusal {
    // The source has more clauses or literals than a sheet may have.
    TooLarge,
    // The number is not that of a condition.
    NoCondition,
    // 256 filings stand.
    FilingsFull,
    // No choice would satisfy the clauses; the lowest ban that would be broken.
    Contradiction(u16),
    // 32 marks stand.
    MarksFull,
    // The buffer has too few places.
    ShortBuffer,
    // No mark of this number stands.
    NoMark,
    // The condition is not in force.
    NotInForce,
}

impl Refusal {
    // The number by which a refusal is reported.
    pub fn number(&self) -> u8
        ensures { result ≡ refusal_number self.now }
    {
        match *self {
            Refusal::TooLarge => 5,
            Refusal::NoCondition => 6,
            Refusal::FilingsFull => 7,
            Refusal::Contradiction(_) => 8,
            Refusal::MarksFull => 9,
            Refusal::ShortBuffer => 10,
            Refusal::NoMark => 11,
            Refusal::NotInForce => 12,
        }
    }
}

// In words, for people.
impl fmt::Display for Refusal {
    ghost output = { λ e. Some (refusal_words e) };

    fn fmt<W: fmt::Write>(&self, f: &mut fmt::Formatter<W>) -> fmt::Result {
        match self {
            Refusal::TooLarge => write!(f, "more than 2,000 clauses or 8,000 literals"),
            Refusal::NoCondition => write!(f, "no condition has this number"),
            Refusal::FilingsFull => write!(f, "256 filings stand"),
            Refusal::Contradiction(ban) => write!(
                f,
                "the clauses contradict each other; clause {ban} is the lowest ban that is broken"
            ),
            Refusal::MarksFull => write!(f, "32 marks stand"),
            Refusal::ShortBuffer => write!(f, "the buffer has too few places"),
            Refusal::NoMark => write!(f, "no mark of this number stands"),
            Refusal::NotInForce => write!(f, "the condition is not in force"),
        }
    }
}

impl Error for Refusal {}

// What an accepted opening answers: how many clauses and conditions there are, and how many body places hold a condition
// in force.
#[derive(Clone, Copy, PartialEq, Eq, Debug)]
pub struct Opened {
    pub clauses: u16,
    pub conditions: u16,
    pub discharged: u16,
}

// What an accepted fact answers: the filing's clause number, and how many body places hold a condition that came into force
// by it.
#[derive(Clone, Copy, PartialEq, Eq, Debug)]
pub struct Filed {
    pub number: u16,
    pub discharged: u16,
}

// What an accepted explain answers: the length of the condition's shortest pebblings, and the number of steps written.
#[derive(Clone, Copy, PartialEq, Eq, Debug)]
pub struct Explained {
    pub length: u16,
    pub steps: u16,
}
