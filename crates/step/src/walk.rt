//! Walking over parts: where a term ends.
ghost use Rattle.std.specs.Prelude.{◌≡◌, ◌+◌, ◌≤◌, length};
ghost use Rattle.step.specs.Walk.{Behind, Splits};

use eff::part::Part;

/// The parts of the term that opens these, and those behind it.
// Crate `claim` has this walk over rows of numbers: one trait for both would have no place for its `impl` for rows: `eff` knows no rows,
// and `sheet` no kinds.
pub(crate) fn split_term(parts: &[Part]) -> (&[Part], &[Part])
    ensures lengths { length result.0.now + length result.1.now ≡ length parts.now }
    ensures splits { Splits parts.now result.0.now result.1.now }
{
    let mut wanted = 1;
    for (end, part) in parts.iter().enumerate() {
        if wanted == 0 {
            return parts.split_at(end);
        }
        wanted = wanted - 1 + part.kind.children().len();
    }
    (parts, &[])
}

/// The parts behind the term that opens these.
pub(crate) fn behind_term(parts: &[Part]) -> &[Part]
    ensures fewer { length result.now ≤ length parts.now }
    ensures behind { Behind parts.now result.now }
{
    split_term(parts).1
}
