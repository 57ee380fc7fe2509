//! Judges the claims of a sheet's parts.
ghost use Rattle.std.specs.Prelude.{◌≡◌};
ghost use Rattle.claim.specs.Sheets.{rows};
ghost use Rattle.claim.specs.Answer.{answer, Answered};

use crate::checker::Checker;
use crate::context::Context;
use fault::{At, ClaimFault};
use shape::Shaped;

/// Whether every part's claim follows from its children's, or refusal 8 at the first part whose claim does not.
pub fn judge(sheet: &Shaped) -> Result<(), At<ClaimFault>>
    ensures value { result ≡ answer (rows sheet.now.ranged) }
    ensures means { Answered (rows sheet.now.ranged) result }
{
    let checker = Checker {
        sheet: sheet.ranged(),
    };
    checker.computation(&Context::Empty, 0)
}
