// The tables of a round's clauses. All memory is reserved when they are made.
ghost use Rattle.std.specs.Prelude.{◌≡◌, ◌∷◌, ◌++◌, ◌+◌, ◌<◌, ◌≤◌, [], IfOk, OnOk, OnErr, IfErr, IfSome, Some, length, option_copied, vec_items, vec_len, vec_capacity};
ghost use Rattle.horn.specs.Sheets.{empty_sheet, IsTooLarge};
ghost use Rattle.horn.specs.Sources.{outcome_at, size_at, condition_at};
ghost use Rattle.round.specs.Lent.{SheetRows};
ghost use Rattle.round.specs.Rows.{rows, Filled};
ghost use Rattle.round.specs.Writing.{Writing, writing_prop, unfinished};
ghost use Rattle.round.specs.declared.sizes.TheConstants.{CLAUSES, PLACES};

use crate::propagation::ClauseRows;
use crate::refusals::Refusal;
use crate::sizes::{CLAUSES, PLACES};
use horn::limits::{MAX_CLAUSES, MAX_LITERALS};
use horn::source::Source;
use std::alloc::{AllocError, Global};

// Clause k, counted from 0, has the outcome `outcomes[k]`, 0 for a ban as a source answers it, and the body from `starts[k]` up to
// `starts[k + 1]` of `places`. A row of clauses, each with its outcome and the end of its body, is no plainer: the first body then
// has no start to read. A body has no Vec of its own, since all memory is reserved before there are bodies.
#[derive(Drop)]
pub(crate) struct Tables {
    pub(crate) conditions: u16,
    outcomes: Vec<u16>,
    starts: Vec<u16>,
    places: Vec<u16>,
    // The bodies stand one after the other; the last one may be unfinished.
    ghost rows: { Writing (rows (vec_items outcomes) (vec_items starts) (vec_items places)) } by { writing_prop (rows (vec_items outcomes) (vec_items starts) (vec_items places)) },
    // The memory is reserved, and enough.
    ghost room: { (CLAUSES ≤ vec_capacity outcomes) × (CLAUSES < vec_capacity starts) × (PLACES ≤ vec_capacity places) },
    ghost few: { (vec_len outcomes ≤ CLAUSES) × (vec_len places ≤ PLACES) },
}

impl Tables {
    ghost use Rattle.round.specs.Held.{held_rows, held_sheet, Placed, Ended, Cut, body_at, Copied, Emptied, Holds};
    ghost use Rattle.round.specs.Lending.{lent_sheet};

    // Empty tables with memory for a whole sheet and 256 clauses more.
    pub(crate) fn new(heap: Global) -> Result<Tables, AllocError>
        ensures { IfOk result Emptied }
    {
        let outcomes = Vec::with_capacity(heap, CLAUSES)?;
        let mut starts = Vec::with_capacity(heap, CLAUSES + 1)?;
        let places = Vec::with_capacity(heap, PLACES)?;
        starts.push_reserved(0);
        Ok(Tables {
            conditions: 0,
            outcomes,
            starts,
            places,
        })
    }

    // Empties the tables and keeps their memory.
    pub(crate) fn clear(&mut self)
        ensures { Emptied self.new }
    {
        self.conditions = 0;
        self.outcomes.clear();
        self.places.clear();
        self.starts.clear();
        self.starts.push_reserved(0);
    }

    // One more place in the body that is being written.
    pub(crate) fn add_place(&mut self, p: u16)
        requires { vec_len self.old.places < PLACES }
        ensures { Placed self.old self.new p }
    {
        self.places.push_reserved(p);
    }

    // Ends the clause whose body was written.
    pub(crate) fn end_clause(&mut self, outcome: u16)
        requires { vec_len self.old.outcomes < CLAUSES }
        ensures { Ended self.old self.new outcome }
    {
        let end = self.places.len() as u16;
        self.outcomes.push_reserved(outcome);
        self.starts.push_reserved(end);
    }

    // Keeps the first n clauses.
    pub(crate) fn truncate(&mut self, n: u16)
        requires filled { Filled (held_rows self.old) }
        requires few { n ≤ vec_len self.old.outcomes }
        ensures { Cut self.old self.new n }
    {
        let n = n as usize;
        let end = self.starts[n] as usize;
        self.outcomes.truncate(n);
        self.starts.truncate(n + 1);
        self.places.truncate(end);
    }

    // How many clauses there are.
    pub(crate) fn clauses(&self) -> u16
        ensures { result ≡ vec_len self.now.outcomes }
    {
        self.outcomes.len() as u16
    }

    // The clauses, lent.
    pub(crate) fn rows(&self) -> ClauseRows<'_>
        requires { SheetRows self.now.conditions (held_rows self.now) }
        ensures { lent_sheet result ≡ held_sheet self.now }
    {
        ClauseRows {
            conditions: self.conditions,
            outcomes: &self.outcomes,
            starts: &self.starts,
            places: &self.places,
        }
    }

    // The conditions of the body of clause i.
    fn body(&self, i: u16) -> Option<&[u16]>
        ensures body { option_copied result ≡ body_at (held_sheet self.now) i }
        ensures short { IfSome result (λ b. length b.now ≤ PLACES) }
    {
        let k = i.checked_sub(1)? as usize;
        let end = *self.starts.get(k + 1)?;
        Some(&self.places[self.starts[k] as usize..end as usize])
    }

    // The outcome of clause i.
    pub(crate) fn outcome(&self, i: u16) -> Option<u16>
        ensures { result ≡ outcome_at (held_sheet self.now) i }
    {
        let k = i.checked_sub(1)? as usize;
        self.outcomes.get(k).copied()
    }

    // The size of the body of clause i.
    pub(crate) fn body_len(&self, i: u16) -> Option<u16>
        ensures { result ≡ size_at (held_sheet self.now) i }
    {
        let body = self.body(i)?;
        Some(body.len() as u16)
    }

    // The condition at place j of the body of clause i.
    pub(crate) fn body_at(&self, i: u16, j: u16) -> Option<u16>
        ensures { result ≡ condition_at (held_sheet self.now) i j }
    {
        let body = self.body(i)?;
        let k = j.checked_sub(1)? as usize;
        body.get(k).copied()
    }

    // Copies the n places of the body of clause i.
    fn copy_body<S: Source>(&mut self, source: &S, i: u16, n: u16)
        requires room { vec_len self.old.places + n ≤ MAX_LITERALS }
        requires size { size_at (S.Source.sheet source.now) i ≡ Some n }
        requires fresh { unfinished (held_rows self.old) ≡ [] }
        ensures sheet { held_sheet self.new ≡ held_sheet self.old }
        ensures body { Some (unfinished (held_rows self.new)) ≡ body_at (S.Source.sheet source.now) i }
        ensures clauses { vec_len self.new.outcomes ≡ vec_len self.old.outcomes }
        ensures places { vec_len self.new.places ≡ vec_len self.old.places + n }
    {
        for j in 1..=n {
            self.add_place(source.body_at(i, j).unwrap_or(0));
        }
    }

    // Copies the clauses of a source into empty tables.
    fn copy_clauses<S: Source>(&mut self, source: &S) -> Result<(), Refusal>
        requires { Emptied self.old }
        ensures kept { OnOk result (Copied (S.Source.sheet source.now) self.new) }
        ensures refused { IfErr result (λ e. (e ≡ Refusal.TooLarge) × IsTooLarge (S.Source.sheet source.now)) }
    {
        let clauses = source.clauses();
        if clauses > MAX_CLAUSES {
            return Err(Refusal::TooLarge);
        }
        let mut literals = 0;
        for i in 1..=clauses {
            let size = source.body_len(i).unwrap_or(0);
            let outcome = source.outcome(i).unwrap_or(0);
            literals += u32::from(size) + u32::from(outcome.min(1));
            if literals > u32::from(MAX_LITERALS) {
                return Err(Refusal::TooLarge);
            }
            self.copy_body(source, i, size);
            self.end_clause(outcome);
        }
        Ok(())
    }

    // Fills the tables from any source; refused, and left empty, where its clauses exceed a sheet's limits.
    pub(crate) fn fill_from<S: Source>(&mut self, source: &S) -> Result<(), Refusal>
        ensures kept { OnOk result (Holds (S.Source.sheet source.now) self.new) }
        ensures refused { IfErr result (λ e. (e ≡ Refusal.TooLarge) × IsTooLarge (S.Source.sheet source.now)) }
        ensures emptied { OnErr result (Emptied self.new) }
    {
        self.clear();
        let copied = self.copy_clauses(source);
        match copied {
            Ok(()) => self.conditions = source.conditions(),
            Err(_) => self.clear(),
        }
        copied
    }
}
