//! Advances of a run.
ghost use Rattle.std.specs.Prelude.{◌≡◌, false};
ghost use Rattle.host.specs.Meaning.{Alike, SameKnown};
ghost use Rattle.machine.specs.Turns.{paused, after_all};
ghost use Rattle.machine.specs.Views.{advance_view, questions};
ghost use Rattle.machine.specs.Uses.{Use, more, Stands, EveryUseIsGuaranteed};
ghost use Rattle.runs.specs.Viewed.{viewed};

use crate::run::Run;
use crate::turn::{Turn, take_turn};
use host::host::Host;
use machine::{Report, State};
use step::{Computation, front};

/// Takes turns of a run by an allowance, until one pauses or ends it; an ended run stays as it is.
pub fn advance<'a, H: Host>(run: Run<'a>, host: &mut H, allowance: u32) -> Run<'a>
    ensures view { viewed result ≡ advance_view (H.Host.replies host.old) allowance (viewed run.entry) }
    ensures means { Alike (H.Host.replies host.new) (after_all (questions (H.Host.replies host.old) allowance (viewed run.entry)) (H.Host.replies host.old)) }
    ensures knows { SameKnown (H.Host.known host.old) (H.Host.known host.new) }
    ensures stands { (u : Use) → Stands u (viewed run.entry) (H.Host.replies host.old) (H.Host.known host.old) → Stands (more u allowance) (viewed result) (H.Host.replies host.new) (H.Host.known host.new) }
    ensures guarantee { EveryUseIsGuaranteed }
    ensures recipe { result.recipe ≡ run.entry.recipe }
    ensures ended { paused run.entry.report.state ≡ false → (result ≡ run.entry) × (host.new ≡ host.old) }
{
    if run.report.state != State::Paused {
        return run;
    }
    let Run {
        recipe,
        mut first,
        mut second,
        mut size,
        report: Report {
            mut state,
            mut steps,
            mut asked,
        },
    } = run;
    let room = first.len().min(second.len());
    let mut left = allowance;
    // A `loop`: a `for` over the allowance would have an end that is never reached, since the last turn comes with nothing left and always ends it.
    loop {
        let computation = Computation {
            parts: front(first, size),
        };
        match take_turn(computation, &mut second[..room], steps, left, recipe, host) {
            Turn::Rests(rest) => {
                state = rest;
                break;
            }
            Turn::Stops(call) => {
                asked += 1;
                state = State::Stopped(call);
                break;
            }
            Turn::Steps(next) => {
                size = next;
            }
            Turn::Answers(next) => {
                size = next;
                asked += 1;
            }
        }
        (first, second) = (second, first);
        steps += 1;
        left -= 1;
    }
    Run {
        recipe,
        first,
        second,
        size,
        report: Report {
            state,
            steps,
            asked,
        },
    }
}
