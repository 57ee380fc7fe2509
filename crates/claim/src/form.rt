//! Types by what they name.
ghost use Rattle.std.specs.Prelude.{◌≡◌};

use eff::former::Former;
use eff::ground::Ground;
use sheet::{Dirty, TypeRow};

/// A type: ground, or by the numbers of the types that it names.
#[derive(Clone, Copy)]
pub(crate) enum Form {
    Ground(Ground),
    Function { takes: u64, gives: Dirty },
    Instance { effect: u64, region: u64 },
    Handler { takes: Dirty, gives: Dirty },
}

/// The type of a row, by its type constructor; every row in range has one, and another is read as a handler's.
impl From<TypeRow> for Form {
    ghost use Rattle.claim.specs.Form.{form_of};

    ghost from_gives = { λ row form. form ≡ form_of row };

    fn from(row: TypeRow) -> Form {
        let gives = Dirty {
            ty: row.b,
            dirt: row.e,
        };
        match Former::try_from(row.kind).unwrap_or(Former::Handler) {
            Former::Function => Form::Function {
                takes: row.a,
                gives,
            },
            Former::Instance => Form::Instance {
                effect: row.a,
                region: row.b,
            },
            Former::Handler => Form::Handler {
                takes: Dirty {
                    ty: row.a,
                    dirt: row.d,
                },
                gives,
            },
        }
    }
}
