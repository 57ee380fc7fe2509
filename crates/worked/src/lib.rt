//! Worked sheets and runs, proved from the rules.

#![tactic(auto)]

mod cases;
mod text;

pub use cases::cases_work;
pub use text::worked_sheet;
