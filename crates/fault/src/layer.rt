//! The layers that refuse.

/// The layer that found a fault, the lowest first.
#[derive(Clone, Copy, Debug, PartialEq, Eq)]
pub enum Layer {
    Text,
    Table,
    Shape,
    Claim,
    Start,
}
