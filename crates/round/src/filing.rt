// Facts and bans filed on a round's clauses.
ghost use Rattle.std.specs.Prelude.{IfOk, IfErr};
ghost use Rattle.round.specs.Answers.{refusal};
ghost use Rattle.round.specs.Calls.{fact as fact_call, ban as ban_call};
ghost use Rattle.round.specs.Runs.{Step};
ghost use Rattle.round.specs.Replies.{fact_answer, number_answer};
ghost use Rattle.round.specs.Sound.{position};
ghost use Rattle.round.specs.Filing.{MayFile, TurnsBack};

use crate::refusals::{Filed, Refusal};
use crate::sound::Round;

// How many filings may stand.
pub(crate) const MAX_FILINGS: u16 = 256;

impl Round {
    // The clause number of one more filing of condition p.
    fn next_number(&self, p: u16) -> Result<u16, Refusal>
        ensures may { IfOk result (MayFile self.now.state p) }
        ensures refused { IfErr result (λ e. TurnsBack self.now.state p (refusal e)) }
    {
        self.condition(p)?;
        let clauses = self.state.tables.clauses();
        if clauses - self.state.opened >= MAX_FILINGS {
            return Err(Refusal::FilingsFull);
        }
        Ok(clauses + 1)
    }

    // Files a fact of condition p.
    pub fn fact(&mut self, p: u16) -> Result<Filed, Refusal>
        ensures { Step (position self.old) (fact_call p) (fact_answer result) (position self.new) }
    {
        let number = self.next_number(p)?;
        self.state.tables.end_clause(p);
        match self.state.settle() {
            Err(refusal) => {
                self.state.tables.truncate(number - 1);
                Err(refusal)
            }
            Ok(discharged) => Ok(Filed { number, discharged }),
        }
    }

    // Files a ban of condition p, which puts nothing in force, so the ranks stay; the answer is its clause number.
    pub fn ban(&mut self, p: u16) -> Result<u16, Refusal>
        ensures { Step (position self.old) (ban_call p) (number_answer result) (position self.new) }
    {
        let number = self.next_number(p)?;
        if self.state.rank[p as usize] > 0 {
            return Err(Refusal::Contradiction(number));
        }
        self.state.tables.add_place(p);
        self.state.tables.end_clause(0);
        Ok(number)
    }
}
