// Ranks level by level: a breadth-first queue of ranked conditions, and a counter of open body places for each clause.
ghost use Rattle.std.specs.Prelude.{◌≡◌, ◌+◌, ◌^◌, ◌<◌, length, vec_items};
ghost use Rattle.round.specs.Lending.{rows_of, lent_sheet};
ghost use Rattle.round.specs.Levels.{Between};
ghost use Rattle.round.specs.Occurrences.{Linked, Owned};
ghost use Rattle.round.specs.Ranks.{Ranks};
ghost use Rattle.round.specs.Rows.{at};
ghost use Rattle.round.specs.Steps.{Extended};

use super::ClauseRows;
use super::occurrences::Occurrences;
use super::reached::Reached;
use crate::sizes::CLAUSES;
use std::alloc::{AllocError, Global};

// Ranks that are being computed: the conditions reached so far, and how many places of each clause are still open.
#[derive(Drop)]
pub(super) struct Levels {
    pub(super) reached: Reached,
    pub(super) open: Box<[u16; CLAUSES]>,
}

// The part of the queue that is worked on: the conditions from `head` up to `end` have the rank `level`.
#[derive(Clone, Copy)]
struct Front {
    head: usize,
    end: usize,
    level: u16,
}

// Clauses and their occurrences stay two parameters: a type for both would be made for three functions of this file, which is no plainer.
impl Levels {
    pub(super) fn new(heap: Global) -> Result<Levels, AllocError> {
        let reached = Reached::new(heap)?;
        let open = Box::new(heap, [0u16; CLAUSES])?;
        Ok(Levels { reached, open })
    }

    // Opens the places of clause c, and enters its outcome if it is a fact.
    fn start(&mut self, c: usize, clauses: ClauseRows<'_>)
        requires clause { c < length clauses.outcomes.now }
        requires before { Between (rows_of clauses) c self.old 0 0 0 0 0 0 }
        ensures { Between (rows_of clauses.entry) (c + 1) self.new 0 0 0 0 0 0 }
    {
        let size = clauses.starts[c + 1] - clauses.starts[c];
        self.open[c] = size;
        if size == 0 {
            self.reached.enter(clauses.outcomes[c], 1);
        }
    }

    // Opens all places, and enters the outcomes of the facts.
    pub(super) fn seed(&mut self, clauses: ClauseRows<'_>)
        ensures { Between (rows_of clauses.entry) (length clauses.entry.outcomes.now) self.new 0 0 0 0 0 0 }
    {
        self.reached.clear();
        // By number: it is the counter's number too.
        for c in 0..clauses.len() {
            self.start(c, clauses);
        }
    }

    // Discharges one place of the condition at the front's head. After the last place of its clause the outcome is entered.
    // Another step than `start`, which opens the places of a clause: they share `enter`, and one function for both is no plainer.
    fn visit(
        &mut self,
        place: usize,
        front: Front,
        clauses: ClauseRows<'_>,
        occurrences: &Occurrences,
    )
        requires owned { Owned (rows_of clauses) (length clauses.outcomes.now) (length clauses.places.now) occurrences.now.owner.value }
        requires small { front.level + 1 < 2 ^ 16 }
        requires place { place < length clauses.places.now }
        requires here { (front.head < front.end) × (at (vec_items self.old.reached.queue) front.head ≡ at clauses.places.now place) }
        requires before { Between (rows_of clauses) (length clauses.outcomes.now) self.old front.head front.end front.level (front.head + 1) (at clauses.places.now place) (place + 1) }
        ensures kept { Extended (vec_items self.old.reached.queue) (vec_items self.new.reached.queue) }
        ensures after { Between (rows_of clauses.entry) (length clauses.entry.outcomes.now) self.new front.head front.end front.level (front.head + 1) (at clauses.entry.places.now place) place }
    {
        let c = occurrences.clause(place);
        let left = self.open[c] - 1;
        self.open[c] = left;
        if left == 0 {
            self.reached.enter(clauses.outcomes[c], front.level + 1);
        }
    }

    // Visits the places of the condition at the front's head.
    fn discharge(&mut self, front: Front, clauses: ClauseRows<'_>, occurrences: &Occurrences)
        requires linked { Linked (rows_of clauses) occurrences.now.first.value occurrences.now.next.value occurrences.now.owner.value }
        requires small { front.level + 1 < 2 ^ 16 }
        requires here { front.head < front.end }
        requires before { Between (rows_of clauses) (length clauses.outcomes.now) self.old front.head front.end front.level front.head 0 0 }
        ensures { Between (rows_of clauses.entry) (length clauses.entry.outcomes.now) self.new (front.head + 1) front.end front.level (front.head + 1) 0 0 }
    {
        let mut next = occurrences.last(self.reached.queue[front.head]);
        while let Some(place) = next {
            self.visit(place, front, clauses, occurrences);
            next = occurrences.before(place);
        }
    }

    // Spreads the ranks from the facts' outcomes, level by level.
    pub(super) fn spread(&mut self, clauses: ClauseRows<'_>, occurrences: &Occurrences)
        requires linked { Linked (rows_of clauses) occurrences.now.first.value occurrences.now.next.value occurrences.now.owner.value }
        requires before { Between (rows_of clauses) (length clauses.outcomes.now) self.old 0 0 0 0 0 0 }
        ensures { Ranks (lent_sheet clauses.entry) self.new.reached.rank.value }
    {
        let mut front = Front {
            head: 0,
            end: 0,
            level: 0,
        };
        // No `for`: the queue grows while it is gone through. A VecDeque is no plainer: the facts speak of conditions that have left it.
        while front.head < self.reached.queue.len() {
            if front.head == front.end {
                front.end = self.reached.queue.len();
                front.level += 1;
            }
            self.discharge(front, clauses, occurrences);
            front.head += 1;
        }
    }
}
