// The console: all input bytes to all output bytes.
#![tactic(auto)]

mod desk;
mod lines;
mod records;
mod serving;
pub mod theorems;

pub use serving::{LIMIT, serve};
