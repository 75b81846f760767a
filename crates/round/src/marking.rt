// Marks, and withdrawals to them: savepoints and rollbacks.
ghost use Rattle.round.specs.Calls.{mark as mark_call, withdraw as withdraw_call};
ghost use Rattle.round.specs.Runs.{Step};
ghost use Rattle.round.specs.Replies.{number_answer};
ghost use Rattle.round.specs.Sound.{position};

use crate::propagation::ranks;
use crate::refusals::Refusal;
use crate::sound::Round;

// How many marks may stand.
pub(crate) const MAX_MARKS: usize = 32;

impl Round {
    // Sets a mark; the answer is its name, the number of marks that stand.
    pub fn mark(&mut self) -> Result<u16, Refusal>
        ensures { Step (position self.old) mark_call (number_answer result) (position self.new) }
    {
        if self.state.marks.len() >= MAX_MARKS {
            return Err(Refusal::MarksFull);
        }
        let filings = self.state.tables.clauses() - self.state.opened;
        self.state.marks.push_reserved(filings);
        Ok(self.state.marks.len() as u16)
    }

    // Removes the filings made since mark m was set, that mark and all later ones; the answer is how many filings went.
    pub fn withdraw(&mut self, m: u16) -> Result<u16, Refusal>
        ensures { Step (position self.old) (withdraw_call m) (number_answer result) (position self.new) }
    {
        if m == 0 || m as usize > self.state.marks.len() {
            return Err(Refusal::NoMark);
        }
        let earlier = m as usize - 1;
        let kept = self.state.opened + self.state.marks[earlier];
        let removed = self.state.tables.clauses() - kept;
        self.state.marks.truncate(earlier);
        self.state.tables.truncate(kept);
        ranks(
            self.state.tables.rows(),
            &mut self.state.rank,
            &mut self.state.scratch,
        );
        Ok(removed)
    }
}
