//! Hosts, which reply to the questions of a computation: their meaning, their laws, and two of them.

#![tactic(auto)]

pub mod host;
pub mod laws;
pub mod mute;
pub mod ration;
