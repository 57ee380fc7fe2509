//! Tables whose parts are one closed computation.
ghost use Rattle.std.specs.Prelude.{Ok};
ghost use Rattle.sheet.specs.Answer.{listing};
ghost use Rattle.shape.specs.Answer.{Answered};

use table::Ranged;

/// The tables of a sheet, every row in range, whose parts are one closed computation within the limit on names.
#[derive(Drop)]
pub struct Shaped {
    pub(crate) ranged: Ranged,
    ghost whole: { ∥ Answered (listing ranged.tables) (Ok tt) ∥₁ },
}
