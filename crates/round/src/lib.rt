// A round: the clauses of a sheet with the rank of every condition, always current.
#![tactic(auto)]

mod calls;
mod explaining;
mod filing;
mod marking;
mod propagation;
mod questions;
mod refusals;
mod rolling;
mod runs;
mod sizes;
mod sound;
mod state;
mod tables;
pub mod theorems;

pub use refusals::{Explained, Filed, Opened, Refusal};
pub use runs::{Answered, Call, Event, Reply};
pub use sound::Round;
