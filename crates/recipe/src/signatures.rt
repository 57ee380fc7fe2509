//! What a recipe's tables say of operations and of function types.
ghost use Rattle.std.specs.Prelude.{◌≡◌, ◌<◌};
ghost use Rattle.eff.specs.Tables.{signature};
ghost use Rattle.table.specs.Meant.{declaration};
ghost use Rattle.recipe.specs.Readers.{declared};

use crate::recipe::Recipe;
use eff::signatures::Signatures;
use sheet::{FIRST_TYPE, Operation};

impl Recipe {
    /// The signature of operation `op` of an effect: the first row for it; of one that is not declared, unit to unit.
    pub fn signature(&self, effect: u64, op: u64) -> Operation
        ensures value { declaration result ≡ signature (declared self.now).operations effect op }
        ensures ground { (result.takes < 4) × (result.gives < 4) }
    {
        table::signature(&self.tables, effect, op)
    }
}

impl Signatures for Recipe {
    ghost tables = { declared };

    fn gives(&self, effect: u32, op: u8) -> u8 {
        self.signature(effect as u64, op as u64).gives as u8
    }

    fn argument(&self, function: u32) -> u8 {
        // Not `type_row(function)`: below `FIRST_TYPE` it gives none, where `Signatures` promises the first row's argument. `type_row` of the larger of the
        // two was tried, and the proof did not close.
        let at = (function as u64).saturating_sub(FIRST_TYPE) as usize;
        let row = self.tables.types.listed().get(at).copied();
        row.unwrap_or_default().a as u8
    }
}
