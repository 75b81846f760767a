// A round: no round can exist whose clauses no choice satisfies, or whose ranks are not those of its clauses.
ghost use Rattle.round.specs.Good.{Good, good_prop};

use crate::state::State;

#[derive(Drop)]
pub struct Round {
    pub(crate) state: State,
    ghost ok: { Good state } by { good_prop state },
}
