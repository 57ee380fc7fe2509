//! The cutter, a host that cuts keys.

#![tactic(auto)]

mod action;
pub mod cutter;
pub mod laws;
mod operation;
pub mod state;
#[cfg(test)]
mod tests;
