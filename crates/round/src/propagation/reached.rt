// The conditions that have got a rank.
ghost use Rattle.std.specs.Prelude.{◌≡◌, ℕ, ◌+◌, ◌<◌, ◌≤◌, [], length, vec_items, vec_len, vec_capacity};
ghost use Rattle.round.specs.Rows.{at};
ghost use Rattle.round.specs.Steps.{zeros, Entered};

use crate::sizes::CONDITIONS;
use std::alloc::{AllocError, Global};

// The rank of each condition, 0 for none yet, and a queue of those that have one, in the order in which they got it. Options
// are no plainer: ranks are compared and counted as numbers, and tables of numbers are what is reserved.
#[derive(Drop)]
pub(super) struct Reached {
    pub(super) rank: Box<[u16; CONDITIONS]>,
    pub(super) queue: Vec<u16>,
    ghost roomy: { 1001 ≤ vec_capacity queue },
}

impl Reached {
    pub(super) fn new(heap: Global) -> Result<Reached, AllocError> {
        let rank = Box::new(heap, [0u16; CONDITIONS])?;
        let queue = Vec::with_capacity(heap, CONDITIONS)?;
        Ok(Reached { rank, queue })
    }

    // Takes all ranks away.
    pub(super) fn clear(&mut self)
        ensures unranked { (p : ℕ) → at self.new.rank.value p ≡ 0 }
        ensures size { length self.new.rank.value ≡ 1001 }
        ensures queue { vec_items self.new.queue ≡ [] }
    {
        self.rank.fill(0);
        self.queue.clear();
    }

    // Ranks an outcome that has no rank yet, and puts it at the end of the queue.
    pub(super) fn enter(&mut self, outcome: u16, r: u16)
        requires outcome { outcome < 1001 }
        requires room { vec_len self.old.queue + zeros self.old.rank.value ≤ 1001 }
        ensures { Entered outcome r self.old.rank.value (vec_items self.old.queue) self.new.rank.value (vec_items self.new.queue) }
    {
        if outcome != 0 && self.rank[outcome as usize] == 0 {
            self.rank[outcome as usize] = r;
            self.queue.push_reserved(outcome);
        }
    }
}
