//! Core Eff.

#![tactic(auto)]

pub mod former;
pub mod ground;
pub mod kind;
pub mod number;
pub mod part;
pub mod question;
pub mod signatures;
pub mod sort;
pub mod theorem;
