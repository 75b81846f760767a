// The answers of a text in place to a source's questions.
ghost use Rattle.std.specs.Prelude.{false};
ghost use Rattle.std.specs.Option.{option_map};
ghost use Rattle.text.specs.Reading.{Opened};
ghost use Rattle.text.specs.Literals.{literals_in, Listed};
ghost use Rattle.text.specs.InPlace.{text_sheet, text_lawful};

use crate::in_place::TextSheet;
use crate::in_place::literals::{Literal, Literals};
use horn::source::Source;

impl TextSheet<'_> {
    // The place of the ( of clause `i`.
    fn opening(&self, i: u16) -> Option<usize>
        ensures { Opened self.now.bytes.now i result }
    {
        let place = self.starts.get(usize::from(i).checked_sub(1)?)?;
        Some(usize::from(*place))
    }

    // The literals of clause `i`.
    fn literals(&self, i: u16) -> Option<Literals<'_>>
        ensures { Listed self.now.bytes.now i (option_map (λ literals. literals_in false literals.rest.now) result) }
    {
        let place = self.opening(i)?;
        let rest = self.bytes.get(place + 1..)?;
        Some(Literals { rest })
    }
}

impl Source for TextSheet<'_> {
    ghost sheet = { text_sheet };

    ghost lawful = { text_lawful };

    fn conditions(&self) -> u16 {
        self.verdict.map_or(0, |counts| counts.conditions)
    }

    fn clauses(&self) -> u16 {
        self.starts.len() as u16
    }

    fn outcome(&self, i: u16) -> Option<u16> {
        let mut outcomes = self.literals(i)?.filter(|literal| !literal.is_negated());
        Some(outcomes.next().map_or(0, Literal::condition))
    }

    fn body_len(&self, i: u16) -> Option<u16> {
        let body = self.literals(i)?.filter(Literal::is_negated);
        Some(body.count() as u16)
    }

    fn body_at(&self, i: u16, j: u16) -> Option<u16> {
        let mut body = self.literals(i)?.filter(Literal::is_negated);
        let literal = body.nth(usize::from(j).checked_sub(1)?)?;
        Some(literal.condition())
    }
}
