// A list of calls made on a round.
ghost use Rattle.std.specs.Prelude.{vec_len};
ghost use Rattle.round.specs.Events.{Replies, Makes, Ran};
ghost use Rattle.round.specs.Sound.{position};

use crate::refusals::{Explained, Filed, Refusal};
use crate::rolling::words_for;
use crate::sound::Round;
use std::alloc::{AllocError, Global};

// A call on an opened round.
#[derive(Clone, Copy, PartialEq, Eq, Debug)]
pub enum Call {
    // of a condition
    Fact(u16),
    Ban(u16),
    Mark,
    // to a mark
    Withdraw(u16),
    // for a condition
    Ask(u16),
    // into a buffer of so many words
    Roll(u16),
    // of a condition, into a buffer of so many places
    Explain(u16, u16),
}

// What an accepted call answered, and what it wrote.
#[derive(PartialEq, Eq, Debug, Drop)]
pub enum Answered {
    Filed(Filed),
    Banned(u16),
    Marked(u16),
    Withdrawn(u16),
    Asked(bool),
    Rolled(u16, Vec<u32>),
    Explained(Explained, Vec<u16>),
}

// What a call answered, or why it was refused.
pub type Reply = Result<Answered, Refusal>;

// A call and its reply.
#[derive(PartialEq, Eq, Debug, Drop)]
pub struct Event {
    pub call: Call,
    pub reply: Reply,
}

impl Round {
    // Makes the calls in order, and answers with their events. Only the list of events and the buffers want memory; where it
    // is wanting, the first of the calls were made and the others were not.
    pub fn run(&mut self, heap: Global, calls: &[Call]) -> Result<Vec<Event>, AllocError>
        ensures { Ran (position self.old) calls.now result (position self.new) }
    {
        let mut events = Vec::with_capacity(heap, calls.len())?;
        for call in calls {
            let reply = self.make(heap, *call)?;
            events.push_reserved(Event { call: *call, reply });
        }
        Ok(events)
    }

    // Makes one call. Its buffer is made before: without memory for it the call is not made.
    fn make(&mut self, heap: Global, call: Call) -> Result<Reply, AllocError>
        ensures { Makes (position self.old) call result (position self.new) }
    {
        match call {
            Call::Fact(p) => Ok(self.fact(p).map(Answered::Filed)),
            Call::Ban(p) => Ok(self.ban(p).map(Answered::Banned)),
            Call::Mark => Ok(self.mark().map(Answered::Marked)),
            Call::Withdraw(m) => Ok(self.withdraw(m).map(Answered::Withdrawn)),
            Call::Ask(p) => Ok(self.ask(p).map(Answered::Asked)),
            Call::Roll(n) => Ok(self.roll_into(vec![in heap; 0; n as usize]?)),
            Call::Explain(p, n) => Ok(self.explain_into(p, vec![in heap; 0; n as usize]?)),
        }
    }

    // Rolls into a buffer, and answers with the words that were written.
    fn roll_into(&self, mut words: Vec<u32>) -> Reply
        ensures { Replies (position self.now) (Call.Roll (vec_len words)) result (position self.now) }
    {
        let size = self.roll(&mut words)?;
        words.truncate(words_for(self.state.tables.conditions));
        Ok(Answered::Rolled(size, words))
    }

    // Another call and another case than in `roll_into`; a function that takes both as parameters is no plainer.
    // Explains condition p in a buffer, and answers with the steps that were written.
    fn explain_into(&mut self, p: u16, mut steps: Vec<u16>) -> Reply
        ensures { Replies (position self.old) (Call.Explain p (vec_len steps)) result (position self.new) }
    {
        let explained = self.explain(p, &mut steps)?;
        steps.truncate(explained.steps as usize);
        Ok(Answered::Explained(explained, steps))
    }
}
