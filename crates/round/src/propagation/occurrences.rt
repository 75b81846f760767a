// Where each condition occurs in the bodies.
ghost use Rattle.std.specs.Prelude.{◌≡◌, ℕ, ◌<◌, ◌≤◌, length};
ghost use Rattle.round.specs.Lending.{rows_of};
ghost use Rattle.round.specs.Occurrences.{Chained, Owned, Linked, cursor};
ghost use Rattle.round.specs.Rows.{at};

use super::ClauseRows;
use crate::sizes::{CONDITIONS, PLACES};
use std::alloc::{AllocError, Global};

// Where each condition occurs: the places of condition p form a chain, from place `first[p] - 1` to `next[place] - 1`
// until 0, which is none, as in `Reached`, and place j is in the body of clause `owner[j]`.
// The chains stay: places sorted by condition would fill as many tables and need a counting sort, which is no plainer.
// `next` and `owner` stay two tables: links are set place by place, owners a whole body at a time.
#[derive(Drop)]
pub(super) struct Occurrences {
    first: Box<[u16; CONDITIONS]>,
    next: Box<[u16; PLACES]>,
    owner: Box<[u16; PLACES]>,
}

impl Occurrences {
    pub(super) fn new(heap: Global) -> Result<Occurrences, AllocError> {
        let first = Box::new(heap, [0u16; CONDITIONS])?;
        let next = Box::new(heap, [0u16; PLACES])?;
        let owner = Box::new(heap, [0u16; PLACES])?;
        Ok(Occurrences { first, next, owner })
    }
}

// Chains the places of each condition.
fn chain(places: &[u16], first: &mut [u16; CONDITIONS], next: &mut [u16; PLACES])
    requires few { length places.now ≤ 8256 }
    requires conditions { (j : ℕ) → j < length places.now → at places.now j < 1001 }
    requires clean { (p : ℕ) → at first.old p ≡ 0 }
    ensures { Chained (length places.now) places.now first.new next.new }
{
    for (j, condition) in places.iter().enumerate() {
        let p = *condition as usize;
        next[j] = first[p];
        first[p] = j as u16 + 1;
    }
}

// Notes each place's clause.
fn own(clauses: ClauseRows<'_>, owner: &mut [u16; PLACES])
    ensures { Owned (rows_of clauses.entry) (length clauses.entry.outcomes.now) (length clauses.entry.places.now) owner.new }
{
    // By number: it is what is noted.
    for c in 0..clauses.len() {
        owner[clauses.starts[c] as usize..clauses.starts[c + 1] as usize].fill(c as u16);
    }
}

impl Occurrences {
    // Notes where the conditions of these clauses occur.
    pub(super) fn link(&mut self, clauses: ClauseRows<'_>)
        ensures { Linked (rows_of clauses.entry) self.new.first.value self.new.next.value self.new.owner.value }
    {
        self.first.fill(0);
        chain(clauses.places, &mut self.first, &mut self.next);
        own(clauses, &mut self.owner);
    }

    // The last place of condition p, if it has one.
    pub(super) fn last(&self, p: u16) -> Option<usize>
        requires { p < 1001 }
        ensures { cursor result ≡ at self.now.first.value p }
    {
        usize::from(self.first[p as usize]).checked_sub(1)
    }

    // The place of the same condition before this one, if there is one.
    pub(super) fn before(&self, place: usize) -> Option<usize>
        requires { place < 8256 }
        ensures { cursor result ≡ at self.now.next.value place }
    {
        usize::from(self.next[place]).checked_sub(1)
    }

    // The clause whose body has this place.
    pub(super) fn clause(&self, place: usize) -> usize
        requires { place < 8256 }
        ensures { result ≡ at self.now.owner.value place }
    {
        self.owner[place] as usize
    }
}
