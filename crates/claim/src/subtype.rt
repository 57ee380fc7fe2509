//! The subtype test.
ghost use Rattle.std.specs.Prelude.{◌≡◌};
ghost use Rattle.eff.specs.Tables.{type};
ghost use Rattle.claim.specs.Below.{below, below_dirty};

use crate::checker::Checker;
use crate::form::Form;
use sheet::Dirty;
use table::inside;

impl Checker<'_> {
    ghost use Rattle.claim.specs.Checker.{declared, dirts};
    ghost use Rattle.claim.specs.Decoded.{decoded, dirty};

    // Whether the type p lies below the type q.
    #[cycle(lies_lies_dirty_subtype)]
    pub(crate) fn lies(&self, p: Form, q: Form) -> bool
        ensures { result ≡ below (dirts self.now) (decoded (declared self.now) p) (decoded (declared self.now) q) }
    {
        match (p, q) {
            (Form::Ground(g), Form::Ground(h)) => g == h,
            (Form::Function { takes: a, gives: c }, Form::Function { takes: b, gives: d }) =>
                self.subtype(b, a) && self.lies_dirty(c, d),
            (
                Form::Instance {
                    effect: e,
                    region: r,
                },
                Form::Instance {
                    effect: f,
                    region: s,
                },
            ) => e == f && inside(r, s),
            (Form::Handler { takes: a, gives: c }, Form::Handler { takes: b, gives: d }) => {
                self.lies_dirty(b, a) && self.lies_dirty(c, d)
            }
            _ => false,
        }
    }

    // Whether the type of number x lies below that of number y.
    #[cycle(lies_lies_dirty_subtype)]
    pub(crate) fn subtype(&self, x: u64, y: u64) -> bool
        ensures { result ≡ below (dirts self.now) (type (declared self.now) x) (type (declared self.now) y) }
    {
        self.lies(self.listed(x), self.listed(y))
    }

    // The same of dirty types.
    #[cycle(lies_lies_dirty_subtype)]
    pub(crate) fn lies_dirty(&self, x: Dirty, y: Dirty) -> bool
        ensures { result ≡ below_dirty (dirts self.now) (dirty (declared self.now) x) (dirty (declared self.now) y) }
    {
        self.subtype(x.ty, y.ty) && inside(x.dirt, y.dirt)
    }
}
