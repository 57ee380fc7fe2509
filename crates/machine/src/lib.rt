//! A run as a definition: what it does over a host, turn by turn, and what is guaranteed of it.

#![tactic(auto)]

mod report;

pub use report::{Report, State};
