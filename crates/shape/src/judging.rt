//! Judges the shape of a sheet's parts.
ghost use Rattle.std.specs.Prelude.{◌≡◌};
ghost use Rattle.sheet.specs.Answer.{listing};
ghost use Rattle.shape.specs.Faults.{Tidied, OneTerm};
ghost use Rattle.shape.specs.Answer.{answer, Answered};

use crate::walker::Walker;
use eff::sort::Sort;
use fault::{At, ShapeFault};
use sheet::{Table, Tables};

/// Whether the parts are one closed computation, none of them under more than 256 names; or the first refusal with its line: refusal 6 is looked for through the whole sheet, then 7.
pub fn judge(tables: &Tables) -> Result<(), At<ShapeFault>>
    ensures value { result ≡ answer (listing tables.now) }
    ensures means { Tidied (listing tables.now) → Answered (listing tables.now) result }
    ensures one { OneTerm (listing tables.now) }
{
    let mut walker = Walker {
        rest: tables.parts.listed(),
        line: tables.first_line(Table::Parts),
        crowd: None,
    };
    walker.fill(Sort::Computation, 0)?;
    walker.closed()
}
