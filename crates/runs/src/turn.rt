//! One turn of a run.
ghost use Rattle.std.specs.Prelude.{◌≡◌, ℕ, ◌≤◌, Bool, true, ◌⊎◌, length, ◌==◌};
ghost use Rattle.eff.specs.Spelling.{term_of};
ghost use Rattle.eff.specs.Outcome.{step as outcome};
ghost use Rattle.host.specs.Meaning.{SameKnown};
ghost use Rattle.machine.specs.Turns.{limit, turn as turn_of, rests};
ghost use Rattle.runs.specs.Turned.{Turned, Put, in_a_byte};

use eff::part::Part;
use eff::question::{Call, Question};
use eff::signatures::Signatures;
use host::host::Host;
use machine::State;
use step::{Computation, Halt, Outcome, resume, step};

/// The most steps that a run takes.
pub(crate) const LIMIT: u32 = 4_000_000_000;

/// What a turn comes to.
#[derive(Clone, Copy)]
pub(crate) enum Turn {
    /// The run rests so.
    Rests(State),
    /// The host refused this call.
    Stops(Call),
    /// A step was taken; the computation has this many parts.
    Steps(usize),
    /// A question was answered; the computation has this many parts.
    Answers(usize),
}

// How a run rests that takes no more steps.
pub(crate) fn resting<S: Signatures>(computation: Computation, steps: u32, signatures: &S) -> State
    ensures { (spent : Bool) (room : ℕ) → (spent ≡ true) ⊎ (limit ≤ steps) → turn_of (S.Signatures.tables signatures.now) room spent steps (term_of computation.entry.parts.now) ≡ rests result }
{
    match step(computation, &mut [], signatures) {
        Ok(Outcome::Value(shown)) => State::Done(shown),
        _ => if steps >= LIMIT {
            State::Limit
        } else {
            State::Paused
        },
    }
}

// Puts a question, and writes the continuation with its answer to the start of a slab.
fn ask<H: Host>(
    question: Question,
    continuation: Computation,
    to: &mut [Part],
    host: &mut H,
) -> Turn
    requires { length continuation.parts.now ≤ length to.old }
    ensures put { Put question (term_of continuation.entry.parts.now) (length to.old) (H.Host.replies host.old) (H.Host.replies host.new) to.new result }
    ensures known { SameKnown (H.Host.known host.old) (H.Host.known host.new) }
{
    let Some(value) = host.ask(question) else {
        return Turn::Stops(question.call);
    };
    match resume(continuation, value, to) {
        Some(size) => Turn::Answers(size),
        None => Turn::Rests(State::Full),
    }
}

// The two lent slabs of a run stay two parameters: the first comes as the computation at its start, the second as what is written to.
//
// One turn of a computation, after so many steps and with so much of the allowance left; what it goes on with is written to the start of `second`.
pub(crate) fn take_turn<S: Signatures, H: Host>(
    computation: Computation,
    second: &mut [Part],
    steps: u32,
    left: u32,
    signatures: &S,
    host: &mut H,
) -> Turn
    requires { (length computation.parts.now ≤ length second.old) × (in_a_byte (outcome (S.Signatures.tables signatures.now) (term_of computation.parts.now)) ≡ true) }
    ensures turned { Turned (turn_of (S.Signatures.tables signatures.now) (length second.old) (left == 0) steps (term_of computation.entry.parts.now)) (length second.old) (H.Host.replies host.old) (H.Host.replies host.new) second.new result }
    ensures known { SameKnown (H.Host.known host.old) (H.Host.known host.new) }
{
    if left == 0 || steps >= LIMIT {
        return Turn::Rests(resting(computation, steps, signatures));
    }
    match step(computation, second, signatures) {
        Ok(Outcome::Value(shown)) => Turn::Rests(State::Done(shown)),
        Ok(Outcome::Asks(asking)) => ask(
            asking.question,
            Computation {
                parts: asking.continuation,
            },
            second,
            host,
        ),
        Ok(Outcome::Next(size)) => Turn::Steps(size),
        Err(Halt::Full) => Turn::Rests(State::Full),
        Err(Halt::Stuck) => Turn::Rests(State::Refused),
    }
}
