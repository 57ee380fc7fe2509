//! Whether a row is in range.
ghost use Rattle.std.specs.Prelude.{◌≡◌, ℕ, ◌<◌, ◌&&◌, [], length, nat_le, slice_index_or};
ghost use Rattle.eff.specs.Dirt.{sets};
ghost use Rattle.sheet.specs.Rows.{operation_of};
ghost use Rattle.sheet.specs.Answer.{listing};
ghost use Rattle.table.specs.Meant.{tables_of};
ghost use Rattle.table.specs.Ranges.{claims};
ghost use Rattle.table.specs.Tests.{operation_ok, function_ok, region_ok, handler_ok, columns_ok, listed_ok, function_type_ok, use_ok, claim_ok, part_ok};

use crate::effects::{calls, declares, has_effect, inside, instances_of};
use eff::former::Former;
use eff::kind::Kind;
use eff::sort::Sort;
use sheet::{Dirty, FIRST_TYPE, Operation, PartRow, Tables, TypeRow};

pub(crate) fn operation_ok(o: &Operation) -> bool
    ensures { result ≡ operation_ok o.now }
{
    o.effect < 8 && o.op < 4 && o.takes < FIRST_TYPE && o.gives < FIRST_TYPE
}

// The tables of a sheet, with the set of all declared calls.
#[derive(Clone, Copy)]
pub(crate) struct Declared<'a> {
    pub(crate) tables: &'a Tables,
    calls: u64,
    ghost known: { calls ≡ (sets (tables_of (listing tables.now))).all },
}

impl<'a> Declared<'a> {
    pub(crate) fn of(tables: &'a Tables) -> Declared<'a>
        requires { (r : ℕ) → r < length (listing tables.now).operations → (slice_index_or (listing tables.now).operations r (operation_of [])).op < 4 }
        ensures { result.tables.now ≡ tables.now }
    {
        Declared {
            tables,
            calls: calls(tables),
        }
    }

    fn function_ok(&self, n: u64, t: &TypeRow) -> bool
        ensures { result ≡ function_ok (listing self.now.tables.now) n t.now }
    {
        t.a < n && t.b < n && t.d == 0 && inside(t.e, self.calls)
    }

    fn region_ok(&self, t: &TypeRow) -> bool
        ensures { result ≡ region_ok (listing self.now.tables.now) t.now }
    {
        let known = has_effect(self.tables.operations.listed(), t.a);
        let region = instances_of(t.a, &self.tables.instances);
        known && inside(t.b, region) && t.d == 0 && t.e == 0
    }

    fn handler_ok(&self, n: u64, t: &TypeRow) -> bool
        ensures { result ≡ handler_ok (listing self.now.tables.now) n t.now }
    {
        t.a < n && t.b < n && inside(t.d, self.calls) && inside(t.e, self.calls)
    }

    // The columns of the type of number n, by its kind.
    fn columns_ok(&self, n: u64, t: &TypeRow) -> bool
        ensures { result ≡ columns_ok (listing self.now.tables.now) n t.now }
    {
        match Former::try_from(t.kind) {
            Ok(Former::Function) => self.function_ok(n, t),
            Ok(Former::Instance) => self.region_ok(t),
            Ok(Former::Handler) => self.handler_ok(n, t),
            Err(_) => false,
        }
    }

    pub(crate) fn type_ok(&self, height: u16, n: u64, t: &TypeRow) -> bool
        ensures { result ≡ (columns_ok (listing self.now.tables.now) n t.now && nat_le height 12) }
    {
        self.columns_ok(n, t) && height <= 12
    }

    // Whether n is the number of a type.
    fn lists(&self, n: u64) -> bool
        ensures { result ≡ listed_ok (listing self.now.tables.now) n }
    {
        n < FIRST_TYPE + self.tables.types.len() as u64
    }

    // Whether n is the number of a function type.
    fn is_function(&self, n: u64) -> bool
        ensures { result ≡ function_type_ok (listing self.now.tables.now) n }
    {
        let row = self.tables.type_row(n);
        row.is_some_and(|t| Former::try_from(t.kind) == Ok(Former::Function))
    }

    // The columns a and b of a part of this kind.
    fn use_ok(&self, kind: Kind, a: u64, b: u64) -> bool
        ensures { result ≡ use_ok (listing self.now.tables.now) kind a b }
    {
        match kind {
            Kind::Variable => b == 0,
            Kind::Truth => a < 2 && b == 0,
            Kind::Numeral => u32::try_from(a).is_ok() && b == 0,
            Kind::Instance => a < self.tables.instances.len() as u64 && b == 0,
            Kind::Function | Kind::Handler => self.lists(a) && b == 0,
            Kind::LetRec => self.is_function(a) && b == 0,
            Kind::Case | Kind::Call => declares(self.tables.operations.listed(), a, b),
            Kind::Successor
            | Kind::Unit
            | Kind::Nil
            | Kind::If
            | Kind::Match
            | Kind::Absurd
            | Kind::Apply
            | Kind::Val
            | Kind::Let
            | Kind::With => a == 0 && b == 0,
        }
    }

    // What a part of this kind claims.
    fn claim_ok(&self, kind: Kind, claim: Dirty) -> bool
        ensures { result ≡ claim_ok (listing self.now.tables.now) (claims kind) claim.ty claim.dirt }
    {
        let Dirty { ty, dirt } = claim;
        match kind.sort() {
            Sort::Expression => self.lists(ty) && dirt == 0,
            Sort::Cases if kind == Kind::Case => ty == 0 && dirt == 0,
            Sort::Cases | Sort::Computation => self.lists(ty) && inside(dirt, self.calls),
        }
    }

    pub(crate) fn part_ok(&self, p: &PartRow) -> bool
        ensures { result ≡ part_ok (listing self.now.tables.now) p.now }
    {
        // No `is_ok_and`: it was tried, and its proof did not close.
        let Ok(kind) = Kind::try_from(p.kind) else {
            return false;
        };
        self.use_ok(kind, p.a, p.b) && self.claim_ok(kind, Dirty::from(*p))
    }
}
