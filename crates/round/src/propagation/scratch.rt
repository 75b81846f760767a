// The tables that propagation works in.
use super::levels::Levels;
use super::occurrences::Occurrences;
use std::alloc::{AllocError, Global};

// The tables that propagation works in, large enough for every round.
#[derive(Drop)]
pub(crate) struct Scratch {
    pub(super) levels: Levels,
    pub(super) occurrences: Occurrences,
}

impl Scratch {
    // The only call of propagation that wants memory.
    pub(crate) fn new(heap: Global) -> Result<Scratch, AllocError> {
        let levels = Levels::new(heap)?;
        let occurrences = Occurrences::new(heap)?;
        Ok(Scratch {
            levels,
            occurrences,
        })
    }
}
