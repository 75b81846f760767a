// Texts of Horn sheets: judging a text, and reading its clauses in place.
#![tactic(auto)]

mod condition_set;
mod conditions;
mod in_place;
mod judging;
mod limits;
mod states;
pub mod theorems;
mod verdict;

pub use in_place::TextSheet;
pub use judging::judge;
pub use verdict::{Counts, Fault};
