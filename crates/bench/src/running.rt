//! A run that has grown, and how long some of its steps take.
ghost use Rattle.std.specs.Prelude.{◌≡◌, ◌+◌, ◌*◌, ◌/◌};
ghost use Rattle.bench.specs.Opening.{Opened};

use crate::sheets::growing;
use eff::part::Part;
use host::mute::Mute;
use recipe::{Recipe, admit};
use runs::{MOST, advance, make};
use std::io;
use std::time::{Duration, Instant};
use step::{front, is_computation};

/// A run after its last step: all the steps that it took, its computation's parts, and how long the steps after its growth took.
#[derive(Clone, Copy)]
pub(crate) struct Measured {
    pub(crate) steps: u32,
    pub(crate) parts: usize,
    pub(crate) span: Duration,
}

/// How many steps a run under so many lets takes until it loops: two for the let recs, and three for each call of grow.
fn growth(lets: u16) -> u32
    ensures { result ≡ 5 + 3 * lets }
{
    5 + 3 * lets as u32
}

/// How many parts the steps of the loop write, an even number of them: 5 for each let, and 10 and 7 by turns.
pub(crate) fn copied(lets: u16, steps: u32) -> u64
    ensures { result ≡ (steps / 2) * (10 * lets + 17) }
{
    let pair = 10 * lets as u32 + 17;
    (steps / 2) as u64 * pair as u64
}

/// How many parts the computation has that opens a slab, if one does.
fn opening(slab: &[Part]) -> Option<usize>
    ensures { Opened slab.now result }
{
    (0..slab.len() + 1).find(|&size| is_computation(front(slab, size)))
}

// Grows a run, and times the steps after that.
fn run<'a>(
    rt: &HostRuntime,
    recipe: &'a Recipe,
    first: &'a mut [Part],
    second: &'a mut [Part],
    growth: u32,
    steps: u32,
) -> io::Result<Measured> {
    let run = make(recipe, first, second);
    let run = advance(run, &mut Mute, growth);
    let start = Instant::now(rt)?;
    let run = advance(run, &mut Mute, steps);
    let span = start.elapsed(rt)?;
    let parts = opening(run.first()).unwrap_or(0);
    Ok(Measured {
        steps: run.read().steps,
        parts,
        span,
    })
}

/// Measures a run under so many lets.
pub(crate) fn measure(rt: &HostRuntime, lets: u16, steps: u32) -> io::Result<Measured> {
    let sheet = growing(rt.alloc(), lets)?;
    let mut place = Recipe::empty();
    // A refusal leaves the place empty, and a run of that takes no step.
    let _ = admit(sheet.as_bytes(), &mut place);
    let mut first = [Part::default(); MOST];
    let mut second = [Part::default(); MOST];
    run(rt, &place, &mut first, &mut second, growth(lets), steps)
}
