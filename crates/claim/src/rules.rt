//! The rules that look into a type, at a node.
ghost use Rattle.std.specs.Prelude.{◌≡◌, ◌-◌, ◌^◌, ◌<◌, ◌≤◌, false, length, slice_index};
ghost use Rattle.eff.specs.Types.{ground, instance};
ghost use Rattle.eff.specs.Tables.{type, takes};
ghost use Rattle.claim.specs.Below.{below};
ghost use Rattle.claim.specs.Placing.{end_of};
ghost use Rattle.claim.specs.Test.{name_ok, case_ok, apply_ok, call_ok, rec_ok, handle_ok, choice_ok};

use crate::checker::Checker;
use crate::context::Context;
use crate::form::Form;
use crate::node::Node;
use eff::ground::Ground;

impl Checker<'_> {
    ghost use Rattle.claim.specs.Checker.{rows, declared, dirts};
    ghost use Rattle.claim.specs.Context.{scope};
    ghost use Rattle.claim.specs.Decoded.{dirty};
    ghost use Rattle.claim.specs.Node.{claim_at};

    // Whether a ground type lies below the type of number `ty`.
    pub(crate) fn ground_ok(&self, own: Ground, ty: u64) -> bool
        ensures { result ≡ below (dirts self.now) (ground own) (type (declared self.now) ty) }
    {
        self.lies(Form::Ground(own), self.listed(ty))
    }

    // Whether the name of a place has a type below that of number `ty`.
    pub(crate) fn named(&self, context: &Context, place: u64, ty: u64) -> bool
        ensures { result ≡ name_ok (dirts self.now) (scope (declared self.now) context.now) place (type (declared self.now) ty) }
    {
        // A match: `is_some_and` was tried, and the proof did not close. It learns nothing of a closure that asks `lies` of the checker.
        match context.get(place) {
            Some(own) => self.lies(own, self.listed(ty)),
            None => false,
        }
    }

    // Whether the type of an instance lies below that of number `ty`.
    pub(crate) fn instance_ok(&self, i: u64, ty: u64) -> bool
        ensures value { i < length (rows self.now).instances → result ≡ below (dirts self.now) (instance (slice_index (declared self.now).instances i) (2 ^ i)) (type (declared self.now) ty) }
        ensures absent { length (rows self.now).instances ≤ i → result ≡ false }
    {
        let instances = self.sheet.tables().instances.listed();
        // No `is_some_and`, as in `named`.
        let Some(instance) = instances.get(i as usize) else {
            return false;
        };
        let own = Form::Instance {
            effect: instance.effect,
            region: 1 << i,
        };
        self.lies(own, self.listed(ty))
    }

    // A choice by a value of a ground type.
    pub(crate) fn choice_ok(&self, by: Ground, node: &Node) -> bool
        ensures { result ≡ choice_ok (dirts self.now) (ground by) (dirty (declared self.now) node.now.own) (type (declared self.now) node.now.first.ty) (dirty (declared self.now) node.now.second) (dirty (declared self.now) node.now.third) }
    {
        self.lies(self.listed(node.first.ty), Form::Ground(by))
            && self.lies_dirty(node.second, node.own)
            && self.lies_dirty(node.third, node.own)
    }

    // A case: its instance, its body, and the nil of its list.
    pub(crate) fn case_ok(&self, node: &Node) -> bool
        ensures { result ≡ case_ok (dirts self.now) node.now.a (type (declared self.now) node.now.first.ty) (dirty (declared self.now) node.now.second) (dirty (declared self.now) (claim_at (rows self.now) (end_of (rows self.now) node.now.third_at - 1))) }
    {
        match self.listed(node.first.ty) {
            Form::Instance { effect, region: _ } => {
                effect == node.a && self.lies_dirty(node.second, self.nil(node.third_at))
            }
            _ => false,
        }
    }

    pub(crate) fn apply_ok(&self, node: &Node) -> bool
        ensures { result ≡ apply_ok (dirts self.now) (dirty (declared self.now) node.now.own) (type (declared self.now) node.now.first.ty) (type (declared self.now) node.now.second.ty) }
    {
        match self.listed(node.first.ty) {
            Form::Function { takes, gives } => {
                self.subtype(node.second.ty, takes) && self.lies_dirty(gives, node.own)
            }
            _ => false,
        }
    }

    // A call: its instance, its argument, and what goes on with the answer.
    pub(crate) fn call_ok(&self, node: &Node) -> bool
        ensures { result ≡ call_ok (dirts self.now) (dirty (declared self.now) node.now.own) node.now.a node.now.b (type (declared self.now) (takes (declared self.now) node.now.a node.now.b)) (type (declared self.now) node.now.first.ty) (type (declared self.now) node.now.second.ty) (dirty (declared self.now) node.now.third) }
    {
        match self.listed(node.first.ty) {
            Form::Instance { effect, region } => {
                effect == node.a
                    && self.subtype(node.second.ty, self.signature(node.a, node.b).takes)
                    && self.lies_dirty(node.third, node.own)
                    && node.admits(region)
            }
            _ => false,
        }
    }

    // A recursive function: its body and the computation that it is for.
    pub(crate) fn rec_ok(&self, node: &Node) -> bool
        ensures { result ≡ rec_ok (dirts self.now) (dirty (declared self.now) node.now.own) (type (declared self.now) node.now.a) (dirty (declared self.now) node.now.first) (dirty (declared self.now) node.now.second) }
    {
        match self.listed(node.a) {
            Form::Function { takes: _, gives } => {
                self.lies_dirty(node.first, gives) && self.lies_dirty(node.second, node.own)
            }
            _ => false,
        }
    }

    pub(crate) fn handle_ok(&self, node: &Node) -> bool
        ensures { result ≡ handle_ok (dirts self.now) (dirty (declared self.now) node.now.own) (type (declared self.now) node.now.first.ty) (dirty (declared self.now) node.now.second) }
    {
        match self.listed(node.first.ty) {
            Form::Handler { takes, gives } => {
                self.lies_dirty(node.second, takes) && self.lies_dirty(gives, node.own)
            }
            _ => false,
        }
    }
}
