//! Tables whose every row is in range.
ghost use Rattle.sheet.specs.Answer.{listing};
ghost use Rattle.table.specs.Ranges.{AllInRange};

use sheet::Tables;

/// The tables of a sheet, every row in range.
#[derive(Drop)]
pub struct Ranged {
    pub(crate) tables: Tables,
    ghost ranges: { ∥ AllInRange (listing tables) ∥₁ },
}
