// The calls on a round.
ghost use Rattle.std.specs.Prelude.{◌≡◌, length, take, IfOk, IfErr};
ghost use Rattle.horn.specs.Sheets.{empty_sheet, Condition};
ghost use Rattle.horn.specs.Levels.{in_force};
ghost use Rattle.round.specs.Answers.{Opens, Outside, Asks, Rolls, words_for, opened};
ghost use Rattle.round.specs.Calls.{ask as ask_call, roll as roll_call, nothing};
ghost use Rattle.round.specs.Promise.{OpeningPromise};
ghost use Rattle.round.specs.Replies.{opening_answer, ask_answer, roll_answer, sheet_left, buffer_left};
ghost use Rattle.round.specs.Runs.{Step};
ghost use Rattle.round.specs.Sound.{position, round_sheet};

use crate::propagation::Ranked;
use crate::refusals::{Opened, Refusal};
use crate::rolling::words_for;
use crate::sound::Round;
use crate::state::State;
use horn::source::Source;
use std::alloc::{AllocError, Global};

impl Round {
    // A round without clauses. No other call can want memory.
    pub fn new(heap: Global) -> Result<Round, AllocError>
        ensures sheet { IfOk result (λ t. round_sheet t ≡ empty_sheet) }
        ensures start { IfOk result (λ t. ((position t).sheet ≡ empty_sheet) × ((position t).standing ≡ nothing)) }
    {
        let state = State::new(heap)?;
        Ok(Round { state })
    }

    // Opens the round on a source's clauses. A refused opening leaves it empty. What it promises of every list of calls that
    // follows is in specs/Promise.antt.
    pub fn open<S: Source>(&mut self, source: &S) -> Result<Opened, Refusal>
        ensures answer { Opens (S.Source.sheet source.now) (opening_answer result) }
        ensures left { round_sheet self.new ≡ sheet_left result (S.Source.sheet source.now) }
        ensures sheet { (position self.new).sheet ≡ opened (opening_answer result) (S.Source.sheet source.now) }
        ensures standing { (position self.new).standing ≡ nothing }
        ensures promise { OpeningPromise (S.Source.sheet source.now) (opening_answer result) }
    {
        self.state.empty();
        self.state.tables.fill_from(source)?;
        let clauses = self.state.tables.clauses();
        self.state.opened = clauses;
        match self.state.settle() {
            Ok(discharged) => Ok(Opened {
                clauses,
                conditions: self.state.tables.conditions,
                discharged,
            }),
            Err(refusal) => {
                self.state.empty();
                Err(refusal)
            }
        }
    }

    // Where condition p stands in the tables.
    pub(crate) fn condition(&self, p: u16) -> Result<usize, Refusal>
        ensures within { IfOk result (λ k. (k ≡ p) × Condition (round_sheet self.now) p) }
        ensures outside { IfErr result (λ e. (e ≡ Refusal.NoCondition) × Outside (round_sheet self.now) p) }
    {
        if p == 0 || p > self.state.tables.conditions {
            return Err(Refusal::NoCondition);
        }
        Ok(p as usize)
    }

    // Whether condition p is in force.
    pub fn ask(&self, p: u16) -> Result<bool, Refusal>
        ensures answer { Asks (round_sheet self.now) p (ask_answer result) }
        ensures step { Step (position self.now) (ask_call p) (ask_answer result) (position self.now) }
    {
        let p = self.condition(p)?;
        Ok(self.state.rank[p] > 0)
    }

    // Writes the set of the conditions in force, one bit each, and answers its size.
    pub fn roll(&self, words: &mut [u32]) -> Result<u16, Refusal>
        ensures answer { Rolls (round_sheet self.now) (length words.old) (roll_answer result (take (words_for (round_sheet self.now).top) words.new)) }
        ensures step { Step (position self.now) (roll_call (length words.old)) (roll_answer result (take (words_for (round_sheet self.now).top) words.new)) (position self.now) }
        ensures buffer { words.new ≡ buffer_left result (in_force (round_sheet self.now)) (round_sheet self.now).top words.old }
    {
        if words.len() < words_for(self.state.tables.conditions) {
            return Err(Refusal::ShortBuffer);
        }
        let ranked = Ranked {
            clauses: self.state.tables.rows(),
            rank: &self.state.rank,
        };
        Ok(ranked.write_roll(words))
    }
}
