//! A whole run: made, and led through a list of calls.
ghost use Rattle.std.specs.Prelude.{◌≡◌, ℕ, ◌+◌, ◌<◌, false, length, take, drop, slice_index_or};
ghost use Rattle.recipe.specs.Readers.{rows, size};
ghost use Rattle.machine.specs.Calls.{ready};
ghost use Rattle.machine.specs.Turns.{paused};
ghost use Rattle.machine.specs.declared.report.Report.{Report};
ghost use Rattle.machine.specs.Views.{report};
ghost use Rattle.machine.specs.Uses.{Use, view, Stands, EveryUseIsGuaranteed};
ghost use Rattle.runs.specs.Viewed.{viewed};
ghost use Rattle.runs.specs.Starting.{Begins};
ghost use Rattle.runs.specs.Acts.{by_act, by_acts};

use crate::act::Act;
use crate::advancing::advance;
use crate::run::Run;
use crate::start::make;
use eff::part::Part;
use host::host::Host;
use machine::Report;
use recipe::Recipe;

// Performs one call of a run. The calls are data and no closures, since the contract says what each of them does to a run.
fn perform<'a, H: Host>(run: Run<'a>, host: &mut H, act: Act) -> Run<'a>
    ensures stands { (u : Use) → Stands u (viewed run.entry) (H.Host.replies host.old) (H.Host.known host.old) → Stands (by_act u act) (viewed result) (H.Host.replies host.new) (H.Host.known host.new) }
    ensures recipe { result.recipe ≡ run.entry.recipe }
    ensures ended { paused run.entry.report.state ≡ false → (result ≡ run.entry) × (host.new ≡ host.old) }
{
    match act {
        Act::Advance(allowance) => advance(run, host, allowance),
        Act::Read => run,
    }
}

/// Makes a run and performs a list of calls, with the report after each, as many as there is a place for.
pub fn conduct<'a, H: Host>(
    recipe: &'a Recipe,
    first: &'a mut [Part],
    second: &'a mut [Part],
    host: &mut H,
    acts: &[Act],
    reports: &mut [Report],
) -> Run<'a>
    ensures stands { (u : Use) → Begins (rows recipe.now) (length first.old) (length second.old) (H.Host.replies host.old) (H.Host.known host.old) u → Stands (by_acts u acts.now) (viewed result) (H.Host.replies host.new) (H.Host.known host.new) }
    ensures each { (u : Use) → Begins (rows recipe.now) (length first.old) (length second.old) (H.Host.replies host.old) (H.Host.known host.old) u → (k : ℕ) (d : Report) → k < length acts.now → k < length reports.old → slice_index_or reports.new k d ≡ report (view (by_acts u (take (k + 1) acts.now))) }
    ensures begins { (u : Use) × Begins (rows recipe.now) (length first.old) (length second.old) (H.Host.replies host.old) (H.Host.known host.old) u }
    ensures guarantee { EveryUseIsGuaranteed }
    ensures recipe { result.recipe.now ≡ recipe.now }
    ensures rest { drop (length acts.now) reports.new ≡ drop (length acts.now) reports.old }
    ensures unready { ready (size recipe.now) (length first.old) (length second.old) ≡ false → (result.first.now ≡ first.old) × (result.second.now ≡ second.old) × (host.new ≡ host.old) }
{
    let mut run = make(recipe, first, second);
    for (i, act) in acts.iter().enumerate() {
        run = perform(run, host, *act);
        // Not by `get_mut`, which was tried: of what it lends of a slice a proof knows nothing once it is given back. A zip would leave out the calls
        // that have no place.
        if i < reports.len() {
            reports[i] = run.read();
        }
    }
    run
}
