// A round is a source: its own clauses. The trait asks for each question, so each is passed on.
ghost use Rattle.round.specs.Sound.{round_sheet, round_lawful};

use crate::sound::Round;
use horn::source::Source;

impl Source for Round {
    ghost sheet = { round_sheet };

    ghost lawful = { round_lawful };

    fn conditions(&self) -> u16 {
        self.state.tables.conditions
    }

    fn clauses(&self) -> u16 {
        self.state.tables.clauses()
    }

    fn outcome(&self, i: u16) -> Option<u16> {
        self.state.tables.outcome(i)
    }

    fn body_len(&self, i: u16) -> Option<u16> {
        self.state.tables.body_len(i)
    }

    fn body_at(&self, i: u16, j: u16) -> Option<u16> {
        self.state.tables.body_at(i, j)
    }
}
