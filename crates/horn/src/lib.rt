// Horn clauses: what sheets, choices and pebblings mean (specs/), the theorems about them, and where clauses come from.
#![tactic(auto)]

pub mod joined;
pub mod limits;
pub mod source;
pub mod theorems;
