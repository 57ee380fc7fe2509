//! The checker of a sheet's claims, and what it reads.
ghost use Rattle.std.specs.Prelude.{◌≡◌, ◌+◌, ◌-◌, ◌<◌, ◌≤◌, length};
ghost use Rattle.fault.specs.declared.claim.ClaimFault.TheVariants.{Claim};
ghost use Rattle.eff.specs.Kinds.{kinded};
ghost use Rattle.eff.specs.Tables.{signature};
ghost use Rattle.sheet.specs.Faults.{count, row_line, parts};
ghost use Rattle.table.specs.Meant.{declaration};

use crate::node::Node;
use eff::kind::Kind;
use fault::{At, ClaimFault};
use sheet::{Dirty, Operation, PartRow, Table};
use table::Ranged;

/// What checks the claims of a sheet in range.
#[derive(Clone, Copy)]
pub(crate) struct Checker<'a> {
    pub(crate) sheet: &'a Ranged,
}

impl Checker<'_> {
    ghost use Rattle.claim.specs.Checker.{rows, declared};
    ghost use Rattle.claim.specs.Placing.{row, end_of};
    ghost use Rattle.claim.specs.Node.{claim_at, Found};
    ghost use Rattle.claim.specs.Recipes.{kind_or};

    // How many parts there are.
    pub(crate) fn size(&self) -> usize
        ensures value { result ≡ length (rows self.now).parts }
        ensures few { result ≤ 1024 }
    {
        self.sheet.tables().parts.len()
    }

    // The row of the part of number `at`; a row of zeros past the last.
    pub(crate) fn part(&self, at: usize) -> PartRow
        ensures { result ≡ row (rows self.now) at }
    {
        let parts = self.sheet.tables().parts.listed();
        parts.get(at).copied().unwrap_or_default()
    }

    // The kind of the part of number `at`: nil where the row's number is no kind's; past the last part that of a row of zeros.
    pub(crate) fn kind(&self, at: usize) -> Kind
        ensures { result ≡ kind_or (kinded (row (rows self.now) at).kind) }
    {
        Kind::try_from(self.part(at).kind).unwrap_or_default()
    }

    // What the part of number `at` claims.
    pub(crate) fn claim(&self, at: usize) -> Dirty
        ensures { result ≡ claim_at (rows self.now) at }
    {
        Dirty::from(self.part(at))
    }

    // What the nil claims of the case list at the part `at`: the list's last part.
    pub(crate) fn nil(&self, at: usize) -> Dirty
        ensures { result ≡ claim_at (rows self.now) (end_of (rows self.now) at - 1) }
    {
        self.claim(self.end(at).saturating_sub(1))
    }

    // The part of number `at` as a node of its term, if there is one.
    pub(crate) fn node(&self, at: usize) -> Option<Node>
        ensures { Found (rows self.now) at result }
    {
        let part = self.sheet.tables().parts.listed().get(at)?;
        let second_at = self.end(at + 1);
        let third_at = self.end(second_at);
        Some(Node {
            kind: self.kind(at),
            a: part.a,
            b: part.b,
            own: self.claim(at),
            at,
            first: self.claim(at + 1),
            second_at,
            second: self.claim(second_at),
            third_at,
            third: self.claim(third_at),
        })
    }

    // The first row for operation `op` of an effect.
    pub(crate) fn signature(&self, effect: u64, op: u64) -> Operation
        ensures { declaration result ≡ signature (declared self.now).operations effect op }
    {
        table::signature(self.sheet.tables(), effect, op)
    }

    // The refusal of the part of number `at`.
    pub(crate) fn refusal(&self, at: usize) -> At<ClaimFault>
        requires { at < 1025 }
        ensures { result ≡ record { line = row_line (count (rows self.now)) parts 0 + at; fault = Claim } }
    {
        At {
            line: self.sheet.tables().first_line(Table::Parts) + at as u64,
            fault: ClaimFault::Claim,
        }
    }
}
