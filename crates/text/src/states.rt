// The reader's states: how far a text follows the grammar.
ghost use Rattle.std.specs.Prelude.{◌≡◌, true, false, MatchOption};
ghost use Rattle.text.specs.States.{next, reach, accepts};

#[derive(Clone, Copy, PartialEq, Eq, Debug)]
pub(crate) enum State {
    Start,
    Literal,
    Negated,
    NegFirst,
    NegMore,
    PosFirst,
    PosMore,
    Done,
}

// The state after one byte more.
fn step(state: State, byte: u8) -> Option<State>
    ensures { result ≡ next state byte }
{
    match (state, byte as char) {
        (State::Start, '(') => Some(State::Literal),
        (State::Literal, '~') => Some(State::Negated),
        (State::Literal, 'P') => Some(State::PosFirst),
        (State::Negated, 'P') => Some(State::NegFirst),
        (State::NegFirst, '1'..='9') | (State::NegMore, '0'..='9') => Some(State::NegMore),
        (State::NegMore, '|') => Some(State::Literal),
        (State::NegMore | State::PosMore, ')') => Some(State::Done),
        (State::PosFirst, '1'..='9') | (State::PosMore, '0'..='9') => Some(State::PosMore),
        (State::Done, '&') => Some(State::Start),
        _ => None,
    }
}

// The place at which a text leaves the grammar, its size if it ends too early; none for a text of the grammar.
pub(crate) fn outside_at(text: &[u8]) -> Option<usize>
    ensures { MatchOption result (accepts State.Start text.now ≡ true) (λ place. (place ≡ reach State.Start text.now) × (accepts State.Start text.now ≡ false)) }
{
    let mut state = State::Start;
    for (place, byte) in text.iter().enumerate() {
        match step(state, *byte) {
            Some(next) => state = next,
            None => return Some(place),
        }
    }
    (!matches!(state, State::Done)).then_some(text.len())
}
