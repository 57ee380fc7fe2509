//! Admits a sheet.
ghost use Rattle.std.specs.Prelude.{◌≡◌};
ghost use Rattle.sheet.specs.Answer.{contents, held, shown, told};
ghost use Rattle.recipe.specs.Admission.{admission, verdict, placed, Answered, Exactly, Typed};

use crate::recipe::Recipe;
use fault::{At, ClaimFault};
use sheet::Tables;

// The tables of a sheet whose claims follow, or the first refusal.
fn read(sheet: &[u8]) -> Result<Tables, At<ClaimFault>>
    ensures value { shown result ≡ held (admission sheet.now) }
    ensures rows { told result ≡ admission sheet.now }
{
    let shaped = shape::read(sheet)?;
    claim::judge(&shaped)?;
    Ok(shaped.into_tables())
}

/// Puts the sheet's recipe into the place; or empties the place and gives the first of refusals 1 to 8 with its line.
pub fn admit(sheet: &[u8], place: &mut Recipe) -> Result<(), At<ClaimFault>>
    ensures value { result ≡ verdict (admission sheet.now) }
    ensures place { contents place.new.tables ≡ placed (admission sheet.now) }
    ensures means { Answered sheet.now (admission sheet.now) }
    ensures exactly { Exactly sheet.now result }
    ensures typed { Typed (admission sheet.now) }
{
    // A lent place, not a result: a place that held a recipe is empty after a refusal.
    *place = Recipe::empty();
    let tables = read(sheet)?;
    *place = Recipe { tables };
    Ok(())
}
