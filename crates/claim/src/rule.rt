//! Whether a part's claim follows from its children's claims.

use crate::checker::Checker;
use crate::context::Context;
use crate::form::Form;
use crate::node::{Node, Way};
use eff::ground::Ground;
use eff::kind::Kind;
use fault::{At, ClaimFault};
use sheet::Dirty;

impl Checker<'_> {
    ghost use Rattle.claim.specs.Checker.{declared};
    ghost use Rattle.claim.specs.Context.{scope};
    ghost use Rattle.claim.specs.Node.{view, Ruled};
    ghost use Rattle.claim.specs.Judging.{RuleVerdict, WayVerdict};

    // The part `at` as a node, if there is one and the rule of its kind holds, under these names; or the refusal there.
    pub(crate) fn checked(
        &self,
        context: &Context,
        at: usize,
    ) -> Result<Option<Node>, At<ClaimFault>>
        ensures { RuleVerdict self.now (scope (declared self.now) context.now) at result }
    {
        let Some(node) = self.node(at) else {
            return Ok(None);
        };
        if self.rule(context, &node) {
            Ok(Some(node))
        } else {
            Err(self.refusal(at))
        }
    }

    // The way down from the part `at`, if there is one and the rule of its kind holds, under these names; or the refusal there.
    pub(crate) fn way_down(
        &self,
        context: &Context,
        at: usize,
    ) -> Result<Option<Way>, At<ClaimFault>>
        ensures { WayVerdict self.now (scope (declared self.now) context.now) at result }
    {
        match self.checked(context, at)? {
            Some(node) => Ok(Some(node.way())),
            None => Ok(None),
        }
    }

    // Whether the rule of a node's kind holds at it, under these names.
    fn rule(&self, context: &Context, node: &Node) -> bool
        ensures { Ruled self.now (scope (declared self.now) context.now) (view node.now) result }
    {
        match node.kind {
            Kind::Variable => self.named(context, node.a, node.own.ty),
            Kind::Truth => self.ground_ok(Ground::Bool, node.own.ty),
            Kind::Numeral => self.ground_ok(Ground::Nat, node.own.ty),
            Kind::Successor => {
                self.lies(self.listed(node.first.ty), Form::Ground(Ground::Nat))
                    && self.ground_ok(Ground::Nat, node.own.ty)
            }
            Kind::Unit => self.ground_ok(Ground::Unit, node.own.ty),
            Kind::Instance => self.instance_ok(node.a, node.own.ty),
            Kind::Function => {
                let function = Form::Function {
                    takes: node.a,
                    gives: node.first,
                };
                self.lies(function, self.listed(node.own.ty))
            }
            Kind::Handler => self.handler_ok(node),
            Kind::Case => self.case_ok(node),
            Kind::Nil => true,
            Kind::If => self.choice_ok(Ground::Bool, node),
            Kind::Match => self.choice_ok(Ground::Nat, node),
            Kind::Absurd => self.lies(self.listed(node.first.ty), Form::Ground(Ground::Empty)),
            Kind::Apply => self.apply_ok(node),
            Kind::Val => {
                let pure = Dirty {
                    ty: node.first.ty,
                    dirt: 0,
                };
                self.lies_dirty(pure, node.own)
            }
            Kind::Call => self.call_ok(node),
            Kind::Let => {
                let joined = Dirty {
                    ty: node.second.ty,
                    dirt: node.first.dirt | node.second.dirt,
                };
                self.lies_dirty(joined, node.own)
            }
            Kind::LetRec => self.rec_ok(node),
            Kind::With => self.handle_ok(node),
        }
    }
}

#[cfg(test)]
mod tests {
    use super::*;

    // An if that claims three calls, with another of them in each branch, and a numeral that claims to be unit.
    const SHEET: &[u8] =
        b"effect op takes gives\n0 0 2 2\n0 1 2 2\n0 2 2 2\n\ninstance effect\n0 0\n\ntype kind a b d e\n\npart kind a b type dirt\n0 10 0 0 1 7\n1 1 1 0 0 0\n2 14 0 0 1 1\n3 2 5 0 1 0\n4 14 0 0 1 2\n5 2 6 0 2 0\n\n";

    // What a part and its children claim, each with its dirt, where its rule holds.
    fn claims(checker: Checker, at: usize) -> Result<Option<[(u64, u64); 4]>, At<ClaimFault>> {
        let node = checker.checked(&Context::Empty, at)?;
        Ok(node.map(|n| [n.own, n.first, n.second, n.third].map(|c| (c.ty, c.dirt))))
    }

    #[test]
    fn nodes(rt: HostRuntime) {
        let sheet = table::read(SHEET).expect(&rt, "a sheet in range");
        let checker = Checker { sheet: &sheet };
        assert_eq!(rt;
            claims(checker, 0),
            Ok(Some([(1, 7), (0, 0), (1, 1), (1, 2)]))
        );
        assert_eq!(rt;
            claims(checker, 5),
            Err(At {
                line: 17,
                fault: ClaimFault::Claim
            })
        );
        assert_eq!(rt; claims(checker, 6), Ok(None));
    }
}
