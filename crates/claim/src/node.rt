//! A part of a sheet as a node of its term.
ghost use Rattle.std.specs.Prelude.{◌≡◌, ◌<◌, ◌≤◌};

use eff::kind::Kind;
use sheet::Dirty;

/// The kind and the columns of the part `at`, where its second and its third child begin, and what it and its children claim. Where the kind has no
/// such child, what stands there is read and not used: with an `Option` for each, every rule would have to ask whether it is there.
// Positions and no slices: a refusal names its part by its position.
#[derive(Clone, Copy)]
pub(crate) struct Node {
    pub(crate) kind: Kind,
    pub(crate) a: u64,
    pub(crate) b: u64,
    pub(crate) own: Dirty,
    pub(crate) at: usize,
    pub(crate) first: Dirty,
    pub(crate) second_at: usize,
    pub(crate) second: Dirty,
    pub(crate) third_at: usize,
    pub(crate) third: Dirty,
    ghost operation: { b < 4 },
    ghost beyond: { at < second_at },
    ghost onward: { second_at ≤ third_at },
}

/// What the way down from a node reads: its kind and its columns, the type that its first child claims, and where its second and its third child begin.
// Less than the node, as the checks hold one for each level of a term, on the stack.
#[derive(Clone, Copy)]
pub(crate) struct Way {
    pub(crate) kind: Kind,
    pub(crate) a: u64,
    pub(crate) b: u64,
    pub(crate) first_ty: u64,
    pub(crate) second_at: usize,
    pub(crate) third_at: usize,
}

impl Node {
    ghost use Rattle.claim.specs.Node.{view, way};

    // What the way down reads.
    pub(crate) fn way(&self) -> Way
        ensures { result ≡ way (view self.now) }
    {
        Way {
            kind: self.kind,
            a: self.a,
            b: self.b,
            first_ty: self.first.ty,
            second_at: self.second_at,
            third_at: self.third_at,
        }
    }
}
