//! The ranges of a sheet's columns: refusals 4 and 5.

#![tactic(auto)]

mod effects;
mod heights;
mod judging;
mod ranged;
mod rows;
mod search;

pub use effects::{inside, signature};
pub use judging::{judge, read};
pub use ranged::Ranged;
