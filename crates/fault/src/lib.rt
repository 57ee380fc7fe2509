//! The faults of all layers: why a sheet or a start is refused, and at which line.

#![tactic(auto)]

mod at;
mod claim;
mod fault;
mod layer;
mod refusal;
mod run;
mod shape;
mod start;
mod table;
mod text;

pub use at::At;
pub use claim::ClaimFault;
pub use fault::Fault;
pub use layer::Layer;
pub use refusal::{LIMIT, Refusal};
pub use run::RunFault;
pub use shape::ShapeFault;
pub use start::StartFault;
pub use table::TableFault;
pub use text::TextFault;
