//! One step of a computation, from one slab into the other.

#![tactic(auto)]

mod cases;
mod computation;
mod halt;
mod law;
mod put;
mod reading;
mod resuming;
mod rewrite;
mod spine;
mod stepping;
mod value;
mod walk;
mod write;

pub use computation::{Computation, front};
pub use halt::Halt;
pub use law::values_are_shown;
pub use reading::is_computation;
pub use resuming::resume;
pub use stepping::{Asking, Outcome, step};
pub use value::Shown;
