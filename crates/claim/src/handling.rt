//! What calls do to dirts.
ghost use Rattle.std.specs.Prelude.{◌≡◌, ◌<◌};
ghost use Rattle.eff.specs.Tables.{Tables, type};
ghost use Rattle.eff.specs.Dirt.{sets, weight, leaves};
ghost use Rattle.eff.specs.Handling.{case_leaves};
ghost use Rattle.claim.specs.Test.{admits};

use crate::checker::Checker;
use crate::form::Form;
use crate::node::Node;
use table::inside;

impl Node {
    // The call of the node's operation on instance i, as a dirt.
    fn call(&self, i: u64) -> u64
        requires { i < 16 }
        ensures { result ≡ weight i self.now.b }
    {
        // `table` weighs a call so too: one function for both would be public, and so without the condition that the shift needs.
        1 << (4 * i + self.b)
    }

    // Whether its own dirt admits its operation on each instance of a region.
    pub(crate) fn admits(&self, region: u64) -> bool
        ensures { (T : Tables) → result ≡ admits (sets T) region self.now.b self.now.own.dirt }
    {
        (0..16).all(|i| (region >> i) % 2 != 1 || inside(self.call(i), self.own.dirt))
    }

    // What a case on its operation at a region leaves of a dirt.
    fn leaves(&self, region: u64, dirt: u64) -> u64
        ensures { (T : Tables) → result ≡ leaves (sets T) region self.now.b dirt }
    {
        let found = (0..16).find(|&i| region == 1 << i);
        found.map_or(dirt, |i| dirt ^ (dirt & self.call(i)))
    }
}

impl Checker<'_> {
    ghost use Rattle.claim.specs.Checker.{declared, dirts};

    // What a case leaves of a dirt.
    pub(crate) fn case_leaves(&self, case: &Node, dirt: u64) -> u64
        ensures { result ≡ case_leaves (dirts self.now) (type (declared self.now) case.now.first.ty) case.now.a case.now.b dirt }
    {
        match self.listed(case.first.ty) {
            Form::Instance { effect, region } if effect == case.a => case.leaves(region, dirt),
            _ => dirt,
        }
    }
}
