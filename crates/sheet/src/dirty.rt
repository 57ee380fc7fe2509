//! What a part claims.
ghost use Rattle.std.specs.Prelude.{◌≡◌};
ghost use Rattle.sheet.specs.Dirty.{dirty_of};

use crate::rows::PartRow;

/// A dirty type: the number of a type, and a dirt.
#[derive(Clone, Copy, Debug, PartialEq, Eq)]
pub struct Dirty {
    pub ty: u64,
    pub dirt: u64,
}

/// What a row of the parts claims. A listed type has no `From`: which of its columns are a dirty type depends on its kind.
impl From<PartRow> for Dirty {
    ghost from_gives = { λ row claim. claim ≡ dirty_of row };

    fn from(row: PartRow) -> Dirty {
        Dirty {
            ty: row.ty,
            dirt: row.dirt,
        }
    }
}
