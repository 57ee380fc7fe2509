//! The operations of the cutter, by number.
ghost use Rattle.std.specs.Prelude.{◌≡◌};
ghost use Rattle.cutter.specs.Operations.{by_number};

use eff::number::NoSuchNumber;

/// An operation of the cutter.
#[derive(Clone, Copy)]
pub enum Operation {
    Go,
    Cut,
    Feel,
}

/// The operation that has this number.
impl TryFrom<u8> for Operation {
    type Error = NoSuchNumber;

    ghost try_from_gives = { λ n r. r ≡ by_number n };

    fn try_from(number: u8) -> Result<Operation, NoSuchNumber> {
        match number {
            0 => Ok(Operation::Go),
            1 => Ok(Operation::Cut),
            2 => Ok(Operation::Feel),
            _ => Err(NoSuchNumber {
                number: number as u64,
            }),
        }
    }
}
