// The clauses of a sheet in three rows.
ghost use Rattle.std.specs.Prelude.{◌≡◌, ◌<◌, length};
ghost use Rattle.std.specs.List.{All};
ghost use Rattle.round.specs.Rows.{rows, clause_in};
ghost use Rattle.round.specs.Lent.{SheetRows, sheet_rows_prop};

// Clauses in three rows, lent: clause c, counted from 0, has the outcome `outcomes[c]`, 0 for a ban, and the conditions
// `places[starts[c]..starts[c + 1]]`.
#[derive(Clone, Copy)]
pub(crate) struct ClauseRows<'a> {
    pub(crate) conditions: u16,
    pub(crate) outcomes: &'a [u16],
    pub(crate) starts: &'a [u16],
    pub(crate) places: &'a [u16],
    ghost sheet: { SheetRows conditions (rows outcomes.now starts.now places.now) } by { sheet_rows_prop conditions (rows outcomes.now starts.now places.now) },
}

impl<'a> ClauseRows<'a> {
    ghost use Rattle.round.specs.Lending.{rows_of};

    // How many clauses there are.
    pub(crate) fn len(&self) -> usize
        ensures { result ≡ length self.now.outcomes.now }
    {
        self.outcomes.len()
    }

    // The conditions of clause c, counted from 0. That c is a clause is asked here and by four functions that take c: a type for a
    // clause's number would be made anew in each loop, which is no plainer.
    pub(crate) fn body(&self, c: usize) -> &'a [u16]
        requires { c < length self.now.outcomes.now }
        ensures body { result.now ≡ (clause_in (rows_of self.now) c).body }
        ensures conditions { All (λ p. p < 1001) result.now }
    {
        &self.places[self.starts[c] as usize..self.starts[c + 1] as usize]
    }
}
