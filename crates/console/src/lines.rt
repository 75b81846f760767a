// What records are answered, and the lines that say it.
ghost use Rattle.std.specs.Prelude.{◌≡◌, ◌++◌, Some, string_bytes, OnOk};
ghost use Rattle.console.specs.declared.lines.Refused.TheVariants.{Text, Round};
ghost use Rattle.console.specs.Lines.{accepted, layer_name, line, optional};
ghost use Rattle.console.specs.Layers.{layer_of};
ghost use Rattle.console.specs.Replies.{answer_numbers, refused_by, refused_number, refused_place, refused_reply, reply_of, reply_text};

use round::{Opened, Refusal};
use std::alloc::AllocError;
use std::fmt;
use text::{Counts, Fault};

// A record's answer, or why it is refused.
pub(crate) type Reply = Result<Answer, Refused>;

// What a record is answered.
#[derive(Clone, Copy, PartialEq, Eq, Debug)]
pub(crate) enum Answer {
    // The counts of an accepted sheet.
    Sheet(Counts),
    // What the opening answered.
    Opening(Opened),
    // Whether the condition is in force.
    Asking(bool),
}

impl fmt::Display for Answer {
    ghost output = { λ a. Some (reply_text (accepted (answer_numbers a))) };

    fn fmt<W: fmt::Write>(&self, f: &mut fmt::Formatter<W>) -> fmt::Result {
        match self {
            Answer::Sheet(sheet) => write!(
                f,
                "{} {} {}",
                sheet.clauses, sheet.conditions, sheet.literals
            ),
            Answer::Opening(opened) => write!(
                f,
                "{} {} {}",
                opened.clauses, opened.conditions, opened.discharged
            ),
            Answer::Asking(in_force) => write!(f, "{}", u8::from(*in_force)),
        }
    }
}

// Why a record is refused.
#[derive(Clone, Copy, PartialEq, Eq, Debug)]
pub(crate) enum Refused {
    // No record begins at this offset.
    Record(usize),
    Text(Fault),
    Round(Refusal),
}

impl From<Fault> for Refused {
    ghost from_gives = { λ f r. r ≡ Text f };

    fn from(fault: Fault) -> Refused {
        Refused::Text(fault)
    }
}

impl From<Refusal> for Refused {
    ghost from_gives = { λ e r. r ≡ Round e };

    fn from(refusal: Refusal) -> Refused {
        Refused::Round(refusal)
    }
}

impl Refused {
    fn layer(&self) -> Layer
        ensures { layer_of result ≡ refused_by self.now }
    {
        match self {
            Refused::Record(_) => Layer::Record,
            Refused::Text(_) => Layer::Text,
            Refused::Round(_) => Layer::Round,
        }
    }

    fn number(&self) -> u8
        ensures { result ≡ refused_number self.now }
    {
        match self {
            Refused::Record(_) => 15,
            Refused::Text(fault) => fault.number(),
            Refused::Round(refusal) => refusal.number(),
        }
    }

    // The place or the ban that is reported, if any.
    fn place(&self) -> Option<usize>
        ensures { optional result ≡ refused_place self.now }
    {
        match *self {
            Refused::Record(offset) => Some(offset),
            Refused::Text(fault) => fault.place(),
            Refused::Round(Refusal::Contradiction(ban)) => Some(ban.into()),
            Refused::Round(_) => None,
        }
    }
}

impl fmt::Display for Refused {
    ghost output = { λ r. Some (reply_text (refused_reply r)) };

    fn fmt<W: fmt::Write>(&self, f: &mut fmt::Formatter<W>) -> fmt::Result {
        write!(f, "{} {}", self.layer(), self.number())?;
        match self.place() {
            Some(place) => write!(f, " {place}"),
            None => Ok(()),
        }
    }
}

// Where a refusal comes from.
#[derive(Clone, Copy, Debug, PartialEq, Eq)]
pub(crate) enum Layer {
    Record,
    Text,
    Round,
}

impl fmt::Display for Layer {
    ghost output = { λ l. Some (layer_name (layer_of l)) };

    fn fmt<W: fmt::Write>(&self, f: &mut fmt::Formatter<W>) -> fmt::Result {
        f.write_str(match self {
            Layer::Record => "record",
            Layer::Text => "text",
            Layer::Round => "round",
        })
    }
}

// Adds the line of a record's reply.
pub(crate) fn push_line(out: &mut String, mark: &str, reply: Reply) -> Result<(), AllocError>
    ensures { OnOk result (string_bytes out.new ≡ string_bytes out.old ++ line mark.now (reply_of reply)) }
{
    match reply {
        Ok(answer) => writeln!(out, "{mark} ok {answer}"),
        Err(refused) => writeln!(out, "{mark} no {refused}"),
    }
}
