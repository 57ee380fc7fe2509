//! The way down lets and withs to the redex.
ghost use Rattle.step.specs.Spine.{Deeper, Fewer, Inside, Leads};

use crate::walk::behind_term;
use eff::kind::Kind;
use eff::part::Part;

/// The parts from where the computation inside the let or the with begins that opens these.
fn inside(parts: &[Part]) -> Option<&[Part]>
    ensures fewer { Fewer parts.now result }
    ensures inside { Inside parts.now result }
{
    let (first, rest) = parts.split_first()?;
    match first.kind {
        Kind::Let => Some(rest),
        Kind::With => Some(behind_term(rest)),
        _ => None,
    }
}

/// The same, unless that computation is a val or a call, and so takes no step of its own.
fn deeper(parts: &[Part]) -> Option<&[Part]>
    ensures fewer { Fewer parts.now result }
    ensures deeper { Deeper parts.now result }
{
    let inner = inside(parts)?;
    match inner.first()?.kind {
        Kind::Val | Kind::Call => None,
        _ => Some(inner),
    }
}

/// The parts of a computation cut where its redex begins.
pub(crate) fn split_at_redex(parts: &[Part]) -> (&[Part], &[Part])
    ensures { Leads parts.now result.0.now result.1.now }
{
    let mut rest = parts;
    while let Some(inner) = deeper(rest) {
        rest = inner;
    }
    parts.split_at(parts.len() - rest.len())
}
