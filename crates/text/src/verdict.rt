// What judging a text answers.
ghost use Rattle.std.specs.Prelude.{◌≡◌, Some};
ghost use Rattle.text.specs.Verdicts.{fault_number, fault_place};
ghost use Rattle.text.specs.Words.{fault_words};

use std::error::Error;
use std::fmt;

// The numbers of a good text's clauses and literals, and its greatest condition.
#[derive(Clone, Copy, PartialEq, Eq, Debug, Default)]
pub struct Counts {
    pub clauses: u16,
    pub conditions: u16,
    pub literals: u16,
}

// Why a text is refused, with the place in bytes from 0.
#[derive(Clone, Copy, PartialEq, Eq, Debug)]
pub enum Fault {
    TooLong,
    Outside(usize),
    TooGreat(usize),
    Repeated(usize),
    TooMany(usize),
}

impl Fault {
    pub fn number(&self) -> u8
        ensures { result ≡ fault_number self.now }
    {
        match *self {
            Fault::TooLong => 1,
            Fault::Outside(_) => 2,
            Fault::TooGreat(_) => 3,
            Fault::Repeated(_) => 4,
            Fault::TooMany(_) => 5,
        }
    }

    pub fn place(&self) -> Option<usize>
        ensures { result ≡ fault_place self.now }
    {
        match *self {
            Fault::TooLong => None,
            Fault::Outside(place)
            | Fault::TooGreat(place)
            | Fault::Repeated(place)
            | Fault::TooMany(place) => Some(place),
        }
    }
}

impl fmt::Display for Fault {
    ghost output = { λ fault. Some (fault_words fault) };

    fn fmt<W: fmt::Write>(&self, f: &mut fmt::Formatter<W>) -> fmt::Result {
        f.write_str(match *self {
            Fault::TooLong => "the text has more than 60,000 bytes",
            Fault::Outside(_) => "no sheet goes on like this",
            Fault::TooGreat(_) => "the condition is above 1,000",
            Fault::Repeated(_) => "the condition stands twice in its body",
            Fault::TooMany(_) => "the sheet has more than 2,000 clauses or 8,000 literals",
        })
    }
}

impl Error for Fault {}
