//! Runs of a recipe over a host, in two lent slabs.

#![tactic(auto)]

mod act;
mod advancing;
mod conducting;
mod reading;
mod run;
mod start;
mod turn;

pub use act::Act;
pub use advancing::advance;
pub use conducting::conduct;
pub use run::Run;
pub use start::{MOST, make, test};
