// What the ranks say of the bans and of the body places.
ghost use Rattle.std.specs.Prelude.{◌≡◌, ◌<◌, not, ◌&&◌, ◌==◌, length};
ghost use Rattle.std.specs.List.{All, list_all, count_by};
ghost use Rattle.horn.specs.Bans.{places};
ghost use Rattle.horn.specs.Levels.{in_force};
ghost use Rattle.round.specs.Lending.{rows_of, lent_sheet};
ghost use Rattle.round.specs.Ranks.{Ranks, ranks_prop, Scanned, ranked};
ghost use Rattle.round.specs.Rows.{at, clause_in};

use super::ClauseRows;
use crate::sizes::CONDITIONS;

// Clauses and the rank of each condition, lent.
#[derive(Clone, Copy)]
pub(crate) struct Ranked<'a> {
    pub(crate) clauses: ClauseRows<'a>,
    pub(crate) rank: &'a [u16; CONDITIONS],
    ghost ranks: { Ranks (lent_sheet clauses) rank.now } by { ranks_prop (lent_sheet clauses) rank.now },
}

// How many of the conditions have a rank in `after` and none in `before`. A function of its own, since its chain is proved of a list.
fn newly(conditions: &[u16], before: &[u16; CONDITIONS], after: &[u16; CONDITIONS]) -> usize
    requires { All (λ p. p < 1001) conditions.now }
    ensures { result ≡ count_by (λ p. ranked after.now p && at before.now p == 0) conditions.now }
{
    conditions
        .iter()
        .filter(|p| after[**p as usize] > 0 && before[**p as usize] == 0)
        .count()
}

impl Ranked<'_> {
    // Whether all conditions of clause c, counted from 0, have ranks.
    fn all_ranked(&self, c: usize) -> bool
        requires { c < length self.now.clauses.outcomes.now }
        ensures { result ≡ list_all (ranked self.now.rank.now) (clause_in (rows_of self.now.clauses) c).body }
    {
        let body = self.clauses.body(c);
        body.iter().all(|p| self.rank[*p as usize] > 0)
    }

    // The number of the lowest broken ban, counted from 1, if there is one.
    pub(crate) fn lowest_broken(&self) -> Option<u16>
        ensures { Scanned (lent_sheet self.now.clauses) result }
    {
        // By number, which is the answer. `find` was tried, and its step stayed unproved.
        for c in 0..self.clauses.len() {
            if self.clauses.outcomes[c] == 0 && self.all_ranked(c) {
                return Some(c as u16 + 1);
            }
        }
        None
    }

    // How many body places, in all clauses, hold a condition that has a rank and had none `before`.
    pub(crate) fn count_newly(&self, before: &[u16; CONDITIONS]) -> u16
        ensures { result ≡ places (λ p. in_force (lent_sheet self.now.clauses) p && not (ranked before.now p)) (lent_sheet self.now.clauses).clauses }
    {
        newly(self.clauses.places, before, self.rank) as u16
    }
}
