//! How a listed type is formed, by number.
ghost use Rattle.std.specs.Prelude.{◌≡◌};
ghost use Rattle.eff.specs.Formers.{number, by_number};

use crate::number::NoSuchNumber;

/// The type constructor of a listed type.
#[derive(Clone, Copy, Debug, PartialEq, Eq)]
pub enum Former {
    Function = 4,
    Instance,
    Handler,
}

/// The number of a type constructor in a sheet.
impl From<Former> for u8 {
    ghost from_gives = { λ former n. n ≡ number former };

    fn from(former: Former) -> u8 {
        former as u8
    }
}

/// The type constructor that has this number.
impl TryFrom<u64> for Former {
    type Error = NoSuchNumber;

    ghost try_from_gives = { λ n r. r ≡ by_number n };

    fn try_from(number: u64) -> Result<Former, NoSuchNumber> {
        match number {
            4 => Ok(Former::Function),
            5 => Ok(Former::Instance),
            6 => Ok(Former::Handler),
            _ => Err(NoSuchNumber { number }),
        }
    }
}
