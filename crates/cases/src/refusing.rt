//! What a test compares of a refusal.
use fault::{At, Fault};

/// A refusal's number and line, or zeros.
pub(crate) fn refusal<T: Drop, F: Fault>(answer: Result<T, At<F>>) -> (u8, u64) {
    answer.err().map_or((0, 0), |at| at.numbers())
}
