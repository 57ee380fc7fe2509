//! A run.
ghost use Rattle.std.specs.Prelude.{◌≡◌, ◌≤◌, min, true, length, take};
ghost use Rattle.recipe.specs.Readers.{rows};
ghost use Rattle.machine.specs.Turns.{limit, paused};
ghost use Rattle.machine.specs.Views.{begun};
ghost use Rattle.runs.specs.Running.{Running};

use eff::part::Part;
use machine::Report;
use recipe::Recipe;

/// A run of a recipe in two lent slabs, with the size of its computation beside them: a run allocates nothing. Its computation stands at the start of the first one, unless it was made against the test.
#[derive(Drop)]
pub struct Run<'a> {
    pub(crate) recipe: &'a Recipe,
    pub(crate) first: &'a mut [Part],
    pub(crate) second: &'a mut [Part],
    pub(crate) size: usize,
    pub(crate) report: Report,
    ghost fits: { size ≤ min (length first.now) (length second.now) },
    ghost counted: { report.steps ≤ limit },
    ghost answered: { (paused report.state ≡ true → report.asked ≤ report.steps) },
    ghost running: { (begun report.state ≡ true → ∥ Running (rows recipe.now) (take size first.now) ∥₁) },
}
