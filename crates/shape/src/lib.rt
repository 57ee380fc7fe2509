//! Whether a sheet's parts are one closed computation: refusals 6 and 7.

#![tactic(auto)]

mod judging;
mod reading;
mod shaped;
mod walk;
mod walker;

pub use judging::judge;
pub use reading::read;
pub use shaped::Shaped;
