//! The sorts of terms, and what a part's children are.

/// The sort of a term: an expression, a case list or a computation.
#[derive(Clone, Copy, Debug, PartialEq, Eq)]
pub enum Sort {
    Expression,
    Cases,
    Computation,
}

/// A child of a part: its sort, and how many more names it stands under than the part.
#[derive(Clone, Copy, Debug, PartialEq, Eq)]
pub struct Child {
    pub sort: Sort,
    pub names: u8,
}
