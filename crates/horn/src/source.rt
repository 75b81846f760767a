// A source of clauses: five questions, and the sheet that the answers mean.
ghost use Rattle.std.specs.Prelude.{◌≡◌, length};
ghost use Rattle.horn.specs.Sheets.{Sheet};
ghost use Rattle.horn.specs.Sources.{LawfulSource, outcome_at, size_at, condition_at};

// A question changes nothing, so it is always answered alike.
pub trait Source {
    // the sheet that the answers mean
    ghost sheet: { Self → Sheet };

    // the law: that sheet is one a source may mean
    ghost lawful: { (s : Self) → LawfulSource (sheet s) };

    // the number of conditions
    fn conditions(&self) -> u16
        ensures { result ≡ (sheet self.now).top };

    // the number of clauses
    fn clauses(&self) -> u16
        ensures { result ≡ length (sheet self.now).clauses };

    // the outcome of clause i, 0 for a ban: a rule of the project (docs/SOURCES.md), since callers of every source count on it
    fn outcome(&self, i: u16) -> Option<u16>
        ensures { result ≡ outcome_at (sheet self.now) i };

    // the size of the body of clause i
    fn body_len(&self, i: u16) -> Option<u16>
        ensures { result ≡ size_at (sheet self.now) i };

    // the condition at place j of the body of clause i
    fn body_at(&self, i: u16, j: u16) -> Option<u16>
        ensures { result ≡ condition_at (sheet self.now) i j };
}

// A source that is lent is one too. The trait asks for each question, so each is passed on.
impl<S: Source> Source for &S {
    ghost sheet = { λ s. S.Source.sheet s.now };

    ghost lawful = { λ s. S.Source.lawful s.now };

    fn conditions(&self) -> u16 {
        (**self).conditions()
    }

    fn clauses(&self) -> u16 {
        (**self).clauses()
    }

    fn outcome(&self, i: u16) -> Option<u16> {
        (**self).outcome(i)
    }

    fn body_len(&self, i: u16) -> Option<u16> {
        (**self).body_len(i)
    }

    fn body_at(&self, i: u16, j: u16) -> Option<u16> {
        (**self).body_at(i, j)
    }
}
