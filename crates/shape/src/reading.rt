//! Reads a sheet as far as the shape of its parts.
ghost use Rattle.std.specs.Prelude.{◌≡◌};
ghost use Rattle.sheet.specs.Answer.{held};
ghost use Rattle.shape.specs.Reading.{shown, told, read_as};

use crate::judging::judge;
use crate::shaped::Shaped;
use fault::{At, ShapeFault};
use sheet::Tables;
use table::Ranged;

impl Shaped {
    /// The tables, every row in range.
    pub fn ranged(&self) -> &Ranged
        ensures { result.now ≡ self.now.ranged }
    {
        &self.ranged
    }

    /// The tables, by value.
    pub fn into_tables(self) -> Tables
        ensures { result ≡ self.ranged.tables }
    {
        let Shaped { ranged } = self;
        ranged.into_tables()
    }
}

/// The tables of a sheet, or the first of refusals 1 to 7 with its line.
pub fn read(bytes: &[u8]) -> Result<Shaped, At<ShapeFault>>
    ensures value { shown result ≡ held (read_as bytes.now) }
    ensures rows { told result ≡ read_as bytes.now }
{
    let ranged = table::read(bytes)?;
    judge(ranged.tables())?;
    Ok(Shaped { ranged })
}
