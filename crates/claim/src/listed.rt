//! The listed types, by number.
ghost use Rattle.std.specs.Prelude.{◌≡◌, ◌≤◌};
ghost use Rattle.eff.specs.Tables.{type};
ghost use Rattle.eff.specs.Claims.{parameter};

use crate::checker::Checker;
use crate::form::Form;
use eff::ground::Ground;

impl Checker<'_> {
    ghost use Rattle.claim.specs.Checker.{declared};
    ghost use Rattle.claim.specs.Decoded.{decoded, rank};

    // The type of number n; a number without a type stands for unit.
    pub(crate) fn listed(&self, n: u64) -> Form
        ensures value { decoded (declared self.now) result ≡ type (declared self.now) n }
        ensures low { rank result ≤ n }
    {
        match self.sheet.tables().type_row(n) {
            Some(row) => Form::from(row),
            None => Form::Ground(Ground::try_from(n).unwrap_or(Ground::Unit)),
        }
    }

    // The argument type of the function type of number n.
    pub(crate) fn parameter(&self, n: u64) -> Form
        ensures { decoded (declared self.now) result ≡ parameter (type (declared self.now) n) }
    {
        match self.listed(n) {
            Form::Function { takes, gives: _ } => self.listed(takes),
            _ => Form::Ground(Ground::Unit),
        }
    }
}
