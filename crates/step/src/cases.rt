//! The cases of a handler.
ghost use Rattle.std.specs.Prelude.{◌≡◌};
ghost use Rattle.step.specs.Cases.{Finds, names_call};

use crate::walk::behind_term;
use eff::kind::Kind;
use eff::part::Part;

/// Whether the instance expression of a case is this instance, and its operation this one.
fn names_call(case: Part, expression: Part, instance: u32, op: u8) -> bool
    ensures { result ≡ names_call case expression instance op }
{
    expression.kind == Kind::Instance && case.b == op && expression.a == instance
}

/// The parts from the body on of the first case that names this call, in the list that opens the parts.
pub(crate) fn first_case(cases: &[Part], instance: u32, op: u8) -> Option<&[Part]>
    ensures { Finds instance op cases.now result }
{
    let mut rest = cases;
    while let [case, expression, ..] = rest
        && case.kind == Kind::Case
    {
        let body = behind_term(&rest[1..]);
        if names_call(*case, *expression, instance, op) {
            return Some(body);
        }
        rest = behind_term(body);
    }
    None
}
