//! The calls that a run is led through.

/// A call of a run.
#[derive(Clone, Copy, Debug, PartialEq, Eq)]
pub enum Act {
    /// An advance by an allowance.
    Advance(u32),
    /// A reading of the report.
    Read,
}
