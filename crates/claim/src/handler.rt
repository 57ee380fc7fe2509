//! The rule of a handler.
ghost use Rattle.std.specs.Prelude.{◌≡◌, ◌-◌};
ghost use Rattle.eff.specs.Sorts.{list};
ghost use Rattle.eff.specs.Tables.{type};
ghost use Rattle.eff.specs.Labels.{Labelled};
ghost use Rattle.eff.specs.Handling.{cases_leave};
ghost use Rattle.claim.specs.Placing.{Placed, end_of};
ghost use Rattle.claim.specs.Test.{handler_ok};

use crate::checker::Checker;
use crate::form::Form;
use crate::node::Node;
use eff::kind::Kind;
use table::inside;

impl Checker<'_> {
    ghost use Rattle.claim.specs.Checker.{rows, declared, dirts};
    ghost use Rattle.claim.specs.Decoded.{dirty};
    ghost use Rattle.claim.specs.Node.{claim_at};

    // What the cases of the list at the part `at` leave of a dirt.
    pub(crate) fn left(&self, at: usize, dirt: u64) -> u64
        ensures { (cs : Labelled list) → Placed (rows self.now) list at cs → result ≡ cases_leave (dirts self.now) cs dirt }
    {
        let Some(case) = self.node(at) else {
            return dirt;
        };
        match case.kind {
            Kind::Case => self.left(case.third_at, self.case_leaves(&case, dirt)),
            _ => dirt,
        }
    }

    // A handler: its val branch is its first child, and its cases are its second.
    pub(crate) fn handler_ok(&self, node: &Node) -> bool
        ensures { (cs : Labelled list) → Placed (rows self.now) list node.now.second_at cs → result ≡ handler_ok (dirts self.now) (type (declared self.now) node.now.own.ty) (type (declared self.now) node.now.a) (dirty (declared self.now) node.now.first) (dirty (declared self.now) (claim_at (rows self.now) (end_of (rows self.now) node.now.second_at - 1))) (cases_leave (dirts self.now) cs) }
    {
        let nil = self.nil(node.second_at);
        match self.listed(node.own.ty) {
            Form::Handler { takes, gives } => {
                self.lies_dirty(node.first, nil)
                    && self.subtype(takes.ty, node.a)
                    && self.lies_dirty(nil, gives)
                    && inside(self.left(node.second_at, takes.dirt), nil.dirt)
            }
            _ => false,
        }
    }
}
