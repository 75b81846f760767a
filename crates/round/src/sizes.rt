// How large a round's tables are: a lawful sheet's limits, and filings of one literal each.
use crate::filing::MAX_FILINGS;
use horn::limits::{MAX_CLAUSES, MAX_CONDITION, MAX_LITERALS};

// Entries by condition, numbered from 1.
pub(crate) const CONDITIONS: usize = MAX_CONDITION as usize + 1;

pub(crate) const CLAUSES: usize = MAX_CLAUSES as usize + MAX_FILINGS as usize;

// Places of conditions in bodies.
pub(crate) const PLACES: usize = MAX_LITERALS as usize + MAX_FILINGS as usize;
