//! Whether the claims of a term follow, part by part.
ghost use Rattle.eff.specs.Sorts.{expr, list, comp};

use crate::checker::Checker;
use crate::context::Context;
use crate::form::Form;
use eff::ground::Ground;
use eff::kind::Kind;
use fault::{At, ClaimFault};

// Three checks that call each other, one for each sort, as terms of the three sorts hold each other. What a kind asks of its children stands at its arm.
impl Checker<'_> {
    ghost use Rattle.claim.specs.Checker.{declared};
    ghost use Rattle.claim.specs.Context.{scope};
    ghost use Rattle.claim.specs.Judging.{Judged};

    // The expression at the part `at`, under these names.
    #[cycle(cases_computation_expression)]
    fn expression(&self, context: &Context, at: usize) -> Result<(), At<ClaimFault>>
        ensures { Judged self.now expr (scope (declared self.now) context.now) at result }
    {
        let Some(way) = self.way_down(context, at)? else {
            return Ok(());
        };
        match way.kind {
            Kind::Successor => self.expression(context, at + 1),
            Kind::Function => self.computation(&context.under(self.listed(way.a)), at + 1),
            Kind::Handler => {
                self.computation(&context.under(self.listed(way.a)), at + 1)?;
                self.cases(context, way.second_at)
            }
            _ => Ok(()),
        }
    }

    // The case list at the part `at`.
    #[cycle(cases_computation_expression)]
    fn cases(&self, context: &Context, at: usize) -> Result<(), At<ClaimFault>>
        ensures { Judged self.now list (scope (declared self.now) context.now) at result }
    {
        let Some(way) = self.way_down(context, at)? else {
            return Ok(());
        };
        match way.kind {
            Kind::Case => {
                self.expression(context, at + 1)?;
                let operation = self.signature(way.a, way.b);
                let resume = Form::Function {
                    takes: operation.gives,
                    gives: self.nil(way.third_at),
                };
                let taken = context.under(self.listed(operation.takes));
                self.computation(&taken.under(resume), way.second_at)?;
                self.cases(context, way.third_at)
            }
            _ => Ok(()),
        }
    }

    // The computation at the part `at`.
    #[cycle(cases_computation_expression)]
    pub(crate) fn computation(&self, context: &Context, at: usize) -> Result<(), At<ClaimFault>>
        ensures { Judged self.now comp (scope (declared self.now) context.now) at result }
    {
        let Some(way) = self.way_down(context, at)? else {
            return Ok(());
        };
        match way.kind {
            Kind::If => {
                self.expression(context, at + 1)?;
                self.computation(context, way.second_at)?;
                self.computation(context, way.third_at)
            }
            Kind::Match => {
                self.expression(context, at + 1)?;
                self.computation(context, way.second_at)?;
                self.computation(&context.under(Form::Ground(Ground::Nat)), way.third_at)
            }
            Kind::Absurd | Kind::Val => self.expression(context, at + 1),
            Kind::Apply => {
                self.expression(context, at + 1)?;
                self.expression(context, way.second_at)
            }
            Kind::Call => {
                self.expression(context, at + 1)?;
                self.expression(context, way.second_at)?;
                let given = self.listed(self.signature(way.a, way.b).gives);
                self.computation(&context.under(given), way.third_at)
            }
            Kind::Let => {
                self.computation(context, at + 1)?;
                self.computation(&context.under(self.listed(way.first_ty)), way.second_at)
            }
            Kind::LetRec => {
                let function = self.listed(way.a);
                let taken = context.under(self.parameter(way.a));
                self.computation(&taken.under(function), at + 1)?;
                self.computation(&context.under(function), way.second_at)
            }
            Kind::With => {
                self.expression(context, at + 1)?;
                self.computation(context, way.second_at)
            }
            _ => Ok(()),
        }
    }
}
