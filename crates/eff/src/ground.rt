//! The ground types, by number.
ghost use Rattle.std.specs.Prelude.{◌≡◌};
ghost use Rattle.eff.specs.Grounds.{number, by_number};

use crate::number::NoSuchNumber;

/// A ground type: what an operation takes and what it gives.
#[derive(Clone, Copy, Debug, PartialEq, Eq)]
pub enum Ground {
    Bool,
    Nat,
    Unit,
    Empty,
}

/// The number of a ground type in a sheet.
impl From<Ground> for u8 {
    ghost from_gives = { λ ground n. n ≡ number ground };

    fn from(ground: Ground) -> u8 {
        ground as u8
    }
}

/// The ground type that has this number.
impl TryFrom<u64> for Ground {
    type Error = NoSuchNumber;

    ghost try_from_gives = { λ n r. r ≡ by_number n };

    fn try_from(number: u64) -> Result<Ground, NoSuchNumber> {
        match number {
            0 => Ok(Ground::Bool),
            1 => Ok(Ground::Nat),
            2 => Ok(Ground::Unit),
            3 => Ok(Ground::Empty),
            _ => Err(NoSuchNumber { number }),
        }
    }
}
