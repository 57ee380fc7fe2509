//! Reads a sheet.
ghost use Rattle.std.specs.Prelude.{◌≡◌};
ghost use Rattle.sheet.specs.Answer.{answer, held, shown, told, Answered, OneText};

use crate::reader::Reader;
use crate::tables::Tables;
use fault::{At, TextFault};

/// The sheet's tables, or the first refusal with its line: refusal 1 is looked for through the whole sheet, then 2, then 3.
pub fn read(bytes: &[u8]) -> Result<Tables, At<TextFault>>
    ensures value { shown result ≡ held (answer bytes.now) }
    ensures rows { told result ≡ answer bytes.now }
    ensures means { Answered bytes.now (told result) }
    ensures one { OneText bytes.now }
{
    let mut reader = Reader {
        rest: bytes,
        line: 1,
    };
    let draft = reader.sheet()?;
    let tables = draft.sized()?;
    tables.turned()?;
    Ok(tables)
}
