//! The two ways in which a step fails.

/// Why a computation has no next one written.
#[derive(Clone, Copy, Debug, PartialEq, Eq)]
pub enum Halt {
    /// No rule fits it.
    Stuck,
    /// There is no room for its next one.
    Full,
}
