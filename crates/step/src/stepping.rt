//! What a computation does next.
ghost use Rattle.std.specs.Prelude.{◌≤◌, length};
ghost use Rattle.step.specs.Stages.{ACall, AskingOf, Nexts};
ghost use Rattle.step.specs.Steps.{Keeps, Steps, Within};

use crate::computation::Computation;
use crate::halt::Halt;
use crate::rewrite::rewrite;
use crate::spine::split_at_redex;
use crate::value::{Shown, worth};
use crate::walk::behind_term;
use crate::write::Writer;
use eff::ground::Ground;
use eff::kind::Kind;
use eff::part::Part;
use eff::question::{Call, Question, Value};
use eff::signatures::Signatures;

/// A question, and the parts of the continuation of its call, which is a computation.
// A bare slice here, and a bool from `is_computation`: a `Computation` was tried, and refused, as the borrow checker takes no enum (`Outcome`, an `Option`)
// that holds a struct with a ghost field.
#[derive(Clone, Copy, Debug, PartialEq, Eq)]
pub struct Asking<'a> {
    pub question: Question,
    pub continuation: &'a [Part],
}

/// What a computation does next.
#[derive(Clone, Copy, Debug, PartialEq, Eq)]
pub enum Outcome<'a> {
    /// It is a val of this value.
    Value(Shown),
    /// It asks.
    Asks(Asking<'a>),
    /// Its next computation is written, and has this many parts.
    Next(usize),
}

/// The question that a call puts, if it is of an instance and its argument and the type wanted are ground.
fn ask<'a, S: Signatures>(from: Computation<'a>, signatures: &S) -> Option<Asking<'a>>
    requires call { ACall from.parts.now }
    requires three { 3 ≤ length from.parts.now }
    ensures { AskingOf (S.Signatures.tables signatures.now) from.entry.parts.now result }
{
    let parts = from.parts;
    let instance = parts[1];
    if instance.kind != Kind::Instance {
        return None;
    }
    let call = Call {
        instance: u8::try_from(instance.a).ok()?,
        op: parts[0].b,
    };
    let argument = worth(&parts[2..])?;
    let wanted = Ground::try_from(signatures.gives(parts[0].a, parts[0].b) as u64).ok()?;
    Some(Asking {
        question: Question {
            call,
            argument,
            wanted,
        },
        continuation: behind_term(&parts[2..]),
    })
}

/// Writes the next computation of one whose redex opens the rest, and tells how many parts it has.
fn next<S: Signatures>(
    before: &[Part],
    rest: &[Part],
    signatures: &S,
    to: &mut [Part],
) -> Result<usize, Halt>
    ensures { Nexts (S.Signatures.tables signatures.now) before.now rest.now (length to.old) to.new result }
{
    let mut writer = Writer::new(to);
    if writer.write(before).is_err() {
        // There is no room: over an empty slab the rewriting still tells a redex that is stuck from one that does not fit.
        let mut none = Writer::new(&mut []);
        rewrite(rest, signatures, &mut none)?;
        return Err(Halt::Full);
    }
    let behind = rewrite(rest, signatures, &mut writer)?;
    writer.write(behind)?;
    Ok(writer.filled)
}

/// What a computation does next; its next one is written to the start of a slab, where there is room for it.
pub fn step<'a, S: Signatures>(
    from: Computation<'a>,
    to: &mut [Part],
    signatures: &S,
) -> Result<Outcome<'a>, Halt>
    ensures within { Within (length from.entry.parts.now) (length to.old) to.new result }
    ensures keeps { Keeps to.old to.new result }
    ensures steps { Steps (S.Signatures.tables signatures.now) from.entry.parts.now (length to.old) to.new result }
{
    let parts = from.parts;
    match parts[0].kind {
        Kind::Val => Ok(Outcome::Value(Shown::of(&parts[1..]))),
        Kind::Call => Ok(Outcome::Asks(ask(from, signatures).ok_or(Halt::Stuck)?)),
        _ => {
            let (before, rest) = split_at_redex(parts);
            Ok(Outcome::Next(next(before, rest, signatures, to)?))
        }
    }
}
