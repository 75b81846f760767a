// What a round is made of: the clauses, the marks, the rank of each condition, and tables to work in.
ghost use Rattle.std.specs.Prelude.{◌≡◌, ℕ, ◌≤◌, IfOk};
ghost use Rattle.horn.specs.Sheets.{empty_sheet};
ghost use Rattle.round.specs.Calls.{nothing};
ghost use Rattle.round.specs.Good.{Good, Stocked, Usable, Bare, Settled, state_sheet, opened_sheet, state_standing};
ghost use Rattle.round.specs.Held.{Emptied};
ghost use Rattle.round.specs.Ranks.{OnlyUpTo};
ghost use Rattle.round.specs.Rows.{at};

use crate::marking::MAX_MARKS;
use crate::propagation::{Ranked, Scratch, ranks};
use crate::refusals::Refusal;
use crate::sizes::CONDITIONS;
use crate::tables::Tables;
use std::alloc::{AllocError, Global};

// The first `opened` clauses are those that the round was opened on, the others are filings. A mark is the number of filings
// that stood when it was set. In the tables by condition 0 is none, as in `Reached`.
#[derive(Drop)]
pub(crate) struct State {
    pub(crate) tables: Tables,
    pub(crate) opened: u16,
    pub(crate) marks: Vec<u16>,
    pub(crate) rank: Box<[u16; CONDITIONS]>,
    pub(crate) spare: Box<[u16; CONDITIONS]>,
    pub(crate) chosen: Box<[u16; CONDITIONS]>,
    pub(crate) scratch: Scratch,
}

// Takes the ranks of the conditions up to `top` away. No other number has a rank, so the rest of the table is not touched: a small
// sheet is forgotten in little time.
fn unrank(rank: &mut [u16; CONDITIONS], top: u16)
    requires few { top ≤ 1000 }
    requires ranked { OnlyUpTo top rank.old }
    ensures { (p : ℕ) → at rank.new p ≡ 0 }
{
    rank[..usize::from(top) + 1].fill(0);
}

impl State {
    // Without clauses and conditions.
    pub(crate) fn new(heap: Global) -> Result<State, AllocError>
        ensures sheet { IfOk result (λ s. Good s × (state_sheet s ≡ empty_sheet)) }
        ensures start { IfOk result (λ s. (opened_sheet s ≡ empty_sheet) × (state_standing s ≡ nothing)) }
    {
        let tables = Tables::new(heap)?;
        let marks = Vec::with_capacity(heap, MAX_MARKS)?;
        let rank = Box::new(heap, [0u16; CONDITIONS])?;
        let spare = Box::new(heap, [0u16; CONDITIONS])?;
        let chosen = Box::new(heap, [0u16; CONDITIONS])?;
        let scratch = Scratch::new(heap)?;
        Ok(State {
            tables,
            opened: 0,
            marks,
            rank,
            spare,
            chosen,
            scratch,
        })
    }

    // Empties the tables and takes the ranks away.
    pub(crate) fn empty(&mut self)
        requires usable { Usable self.old }
        requires few { self.old.tables.conditions ≤ 1000 }
        requires ranked { OnlyUpTo self.old.tables.conditions self.old.rank.value }
        ensures tables { Emptied self.new.tables }
        ensures bare { Bare self.new }
    {
        unrank(&mut self.rank, self.tables.conditions);
        self.tables.clear();
        self.opened = 0;
        self.marks.clear();
    }

    // Ranks the conditions anew and looks for a broken ban. Refused with the lowest one, it keeps the old ranks; else it
    // answers how many body places hold a condition that has a rank now and had none.
    pub(crate) fn settle(&mut self) -> Result<u16, Refusal>
        requires { Stocked self.old }
        ensures { Settled self.old self.new result }
    {
        let clauses = self.tables.rows();
        ranks(clauses, &mut self.spare, &mut self.scratch);
        let ranked = Ranked {
            clauses,
            rank: &self.spare,
        };
        if let Some(ban) = ranked.lowest_broken() {
            return Err(Refusal::Contradiction(ban));
        }
        let discharged = ranked.count_newly(&self.rank);
        std::mem::swap(&mut self.rank, &mut self.spare);
        Ok(discharged)
    }
}
