//! The text of a sheet: its four tables as read, or refusals 1 to 3.

#![tactic(auto)]

mod contents;
mod dirty;
mod draft;
mod law;
mod reader;
mod reading;
mod rows;
mod tables;
mod turns;
mod walk;

pub use dirty::Dirty;
pub use law::lines_are_counted;
pub use reading::read;
pub use rows::{FIRST_TYPE, Instance, Operation, PartRow, TypeRow};
pub use tables::{INSTANCES, OPERATIONS, PARTS, Rows, TYPES, Table, Tables};
