// Propagation of ranks through the clauses, breadth first with counters, and what the ranks say of bans and places.
mod levels;
mod occurrences;
mod reached;
mod rows;
mod scan;
mod scratch;

ghost use Rattle.round.specs.Lending.{lent_sheet};
ghost use Rattle.round.specs.Ranks.{Ranks};

use crate::sizes::CONDITIONS;
pub(crate) use rows::ClauseRows;
pub(crate) use scan::Ranked;
pub(crate) use scratch::Scratch;

// Fills `rank` with each condition's rank, the length of its shortest pebblings, and 0 for a condition that is not in
// force, in time linear in the literals.
pub(crate) fn ranks(
    clauses: ClauseRows<'_>,
    rank: &mut Box<[u16; CONDITIONS]>,
    scratch: &mut Scratch,
)
    ensures { Ranks (lent_sheet clauses.entry) rank.new.value }
{
    scratch.occurrences.link(clauses);
    scratch.levels.seed(clauses);
    scratch.levels.spread(clauses, &scratch.occurrences);
    std::mem::swap(rank, &mut scratch.levels.reached.rank);
}
