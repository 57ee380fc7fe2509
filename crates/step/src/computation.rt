//! The parts of one computation.
ghost use Rattle.std.specs.Prelude.{◌≡◌, take};
ghost use Rattle.eff.specs.Spelling.{Whole};

use eff::part::Part;

/// The parts of one computation, in order. Parts in a slab and no tree of boxes, since a run allocates nothing.
#[derive(Clone, Copy)]
pub struct Computation<'a> {
    pub parts: &'a [Part],
    ghost whole: { Whole parts.now },
}

/// The first parts of a slab.
pub fn front(slab: &[Part], size: usize) -> &[Part]
    ensures { result.now ≡ take size slab.now }
{
    slab.get(..size).unwrap_or(slab)
}
