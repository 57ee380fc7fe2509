//! What a program says of an input that it refuses.
ghost use Rattle.std.specs.Prelude.{◌≡◌, Some};
ghost use Rattle.fault.specs.declared.refusal.Refusal.TheVariants.{Fault as OfFault};
ghost use Rattle.fault.specs.Refusals.{text, within_limit};

use crate::at::At;
use crate::fault::Fault;
use std::fmt;

/// The longest input that a program reads, in bytes.
pub const LIMIT: u64 = 16_384;

/// Why a program refuses its input.
#[derive(Clone, Copy, Debug, PartialEq, Eq)]
pub enum Refusal<F> {
    /// It is longer than the limit.
    TooLong,
    Fault(At<F>),
}

impl<F> Refusal<F> {
    /// Refuses an input that is longer than the limit.
    pub fn within_limit(bytes: &[u8]) -> Result<(), Refusal<F>>
        ensures { result ≡ within_limit bytes.now }
    {
        if bytes.len() as u64 > LIMIT {
            return Err(Refusal::TooLong);
        }
        Ok(())
    }
}

impl<F: Copy> From<At<F>> for Refusal<F> {
    ghost from_gives = { λ e r. r ≡ OfFault e };

    fn from(e: At<F>) -> Refusal<F> {
        Refusal::Fault(e)
    }
}

impl<F: Fault> fmt::Display for Refusal<F> {
    ghost output = { λ r. Some (text F.Fault.number_of r) };

    fn fmt<W: fmt::Write>(&self, f: &mut fmt::Formatter<W>) -> fmt::Result {
        let (number, line) = match *self {
            Refusal::TooLong => (0, 0),
            Refusal::Fault(at) => at.numbers(),
        };
        write!(f, "number line\n{number} {line}")
    }
}
