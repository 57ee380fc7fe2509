//! Whether the claims of a recipe follow: refusal 8.

#![tactic(auto)]

mod checker;
mod context;
mod extent;
mod form;
mod handler;
mod handling;
mod judging;
mod listed;
mod node;
mod ring;
mod rule;
mod rules;
mod subtype;

pub use judging::judge;
