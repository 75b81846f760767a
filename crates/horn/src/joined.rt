// Two sources, one after the other.
ghost use Rattle.horn.specs.Joining.{joined, joined_lawful, ComesFrom};

use crate::source::Source;

// The first one's clauses, then the second's, cut after 65,535; the greater number of conditions.
#[derive(Drop)]
pub struct Joined<A, B> {
    pub first: A,
    pub second: B,
}

impl<A: Source, B: Source> Joined<A, B> {
    // Which of the second source's clauses clause i is, where it is not the first source's.
    fn past_first(&self, i: u16) -> Option<u16>
        ensures { ComesFrom (A.Source.sheet self.now.first) (B.Source.sheet self.now.second) i result }
    {
        let n = self.first.clauses();
        if i <= n { None } else { Some(i - n) }
    }
}

impl<A: Source, B: Source> Source for Joined<A, B> {
    ghost sheet = { λ s. joined (A.Source.sheet s.first) (B.Source.sheet s.second) };

    ghost lawful = { λ s. joined_lawful (A.Source.sheet s.first) (B.Source.sheet s.second) (A.Source.lawful s.first) (B.Source.lawful s.second) };

    fn conditions(&self) -> u16 {
        self.first.conditions().max(self.second.conditions())
    }

    fn clauses(&self) -> u16 {
        self.first.clauses().saturating_add(self.second.clauses())
    }

    // The trait asks for these three; one look-up that takes the question as a closure is no plainer.
    fn outcome(&self, i: u16) -> Option<u16> {
        match self.past_first(i) {
            None => self.first.outcome(i),
            Some(k) => self.second.outcome(k),
        }
    }

    fn body_len(&self, i: u16) -> Option<u16> {
        match self.past_first(i) {
            None => self.first.body_len(i),
            Some(k) => self.second.body_len(k),
        }
    }

    fn body_at(&self, i: u16, j: u16) -> Option<u16> {
        match self.past_first(i) {
            None => self.first.body_at(i, j),
            Some(k) => self.second.body_at(k, j),
        }
    }
}
