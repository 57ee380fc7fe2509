//! Admitted recipes, and their place.

#![tactic(auto)]

mod admitting;
mod reading;
mod recipe;
mod signatures;

pub use admitting::admit;
pub use recipe::Recipe;
