//! The test before a start, and the making of a run.
ghost use Rattle.std.specs.Prelude.{◌≡◌, ◌≤◌, false, length, take, drop};
ghost use Rattle.claim.specs.Recipes.{parts_of};
ghost use Rattle.recipe.specs.Readers.{rows, size};
ghost use Rattle.host.specs.Meaning.{Replies, Known, Lawful};
ghost use Rattle.machine.specs.Calls.{ready};
ghost use Rattle.machine.specs.Uses.{Use, Stands};
ghost use Rattle.runs.specs.Viewed.{viewed};
ghost use Rattle.runs.specs.Starting.{tested, making, Begins};

use crate::run::Run;
use crate::turn::resting;
use eff::part::Part;
use fault::{At, StartFault};
use machine::{Report, State};
use recipe::Recipe;
use step::{Computation, front};

/// The most parts that a slab may have.
pub const MOST: usize = 16384;

// Whether a recipe of so many parts can run in slabs of these lengths.
fn fits(size: usize, first: usize, second: usize) -> bool
    ensures { result ≡ ready size first second }
{
    size > 0 && size <= first.min(second) && first.max(second) <= MOST
}

// The two slabs are two parameters here as in `make` and `conduct`: they are lent apart, and a struct of both would only be made to be taken apart.

/// The test before a start: refusal 9 where the place is empty, the shorter slab is smaller than the recipe, or a slab is too long.
pub fn test(recipe: &Recipe, first: &[Part], second: &[Part]) -> Result<(), At<StartFault>>
    ensures { result ≡ tested (size recipe.now) (length first.now) (length second.now) }
{
    if fits(recipe.size(), first.len(), second.len()) {
        return Ok(());
    }
    Err(At {
        line: 0,
        fault: StartFault::Unready,
    })
}

// Writes a recipe's parts to the start of a slab, and no others.
fn copy(recipe: &Recipe, to: &mut [Part])
    requires { size recipe.now ≤ length to.old }
    ensures parts { take (size recipe.now) to.new ≡ parts_of (rows recipe.now) }
    ensures free { drop (size recipe.now) to.new ≡ drop (size recipe.now) to.old }
{
    for (at, part) in to[..recipe.size()].iter_mut().enumerate() {
        *part = recipe.part(at);
    }
}

/// Makes a run of a recipe in two lent slabs: it advances by 0, for which it needs no host. Made against the test, it is ended, runs no recipe and
/// writes nothing.
pub fn make<'a>(recipe: &'a Recipe, first: &'a mut [Part], second: &'a mut [Part]) -> Run<'a>
    ensures view { viewed result ≡ making (rows recipe.now) (length first.old) (length second.old) }
    ensures stands { (m : Replies) (k : Known) (u : Use) → Begins (rows recipe.now) (length first.old) (length second.old) m k u → Stands u (viewed result) m k }
    ensures begins { (m : Replies) (k : Known) → Lawful m k → (u : Use) × Begins (rows recipe.now) (length first.old) (length second.old) m k u }
    ensures recipe { result.recipe.now ≡ recipe.now }
    ensures free { drop (size recipe.now) result.first.now ≡ drop (size recipe.now) first.old }
    ensures second { result.second.now ≡ second.old }
    ensures unready { ready (size recipe.now) (length first.old) (length second.old) ≡ false → result.first.now ≡ first.old }
{
    let size = recipe.size();
    if !fits(size, first.len(), second.len()) {
        return Run {
            recipe,
            first,
            second,
            size: 0,
            report: Report {
                state: State::Refused,
                steps: 0,
                asked: 0,
            },
        };
    }
    copy(recipe, first);
    let state = resting(
        Computation {
            parts: front(first, size),
        },
        0,
        recipe,
    );
    Run {
        recipe,
        first,
        second,
        size,
        report: Report {
            state,
            steps: 0,
            asked: 0,
        },
    }
}
