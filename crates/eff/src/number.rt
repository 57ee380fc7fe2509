//! Numbers that name nothing.

/// A number that none of the things asked for has: no kind, say, or no ground type.
#[derive(Clone, Copy, Debug, PartialEq, Eq)]
pub struct NoSuchNumber {
    pub number: u64,
}
