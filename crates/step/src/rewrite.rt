//! The rules, each written for the redex that opens some parts.
ghost use Rattle.std.specs.Prelude.{◌≡◌, ◌≤◌, length};
ghost use Rattle.eff.specs.Syntax.{part};
ghost use Rattle.eff.specs.declared.kind.Kind.TheVariants as k;
ghost use Rattle.step.specs.Rewrites.{Passes, Rewriting, RewritingAll, WithCall, WithCase, any, ready, under, prepared};
ghost use Rattle.step.specs.Written.{Kept};

use crate::cases::first_case;
use crate::halt::Halt;
use crate::put::Substitution;
use crate::walk::{behind_term, split_term};
use crate::write::{Runs, Writer};
use eff::kind::Kind;
use eff::part::Part;
use eff::signatures::Signatures;

/// The parts that a redex opens, its first two being there.
#[derive(Clone, Copy)]
struct Redex<'a> {
    parts: &'a [Part],
    ghost there: { 2 ≤ length parts.now },
}

/// The first part of a function, `argument` being the number of its argument's type.
fn function(argument: u32) -> Part
    ensures { result ≡ part k.Function argument 0 }
{
    Part {
        kind: Kind::Function,
        a: argument,
        b: 0,
    }
}

/// A call inside a let or a with: the parts before it, from the let or the with on, and those that it opens, its first two being there.
#[derive(Clone, Copy)]
struct Nested<'a> {
    before: &'a [Part],
    inner: &'a [Part],
    ghost inside: { 1 ≤ length before.now },
    ghost there: { 2 ≤ length inner.now },
}

impl<'a> Redex<'a> {
    /// An if.
    fn on_if(self, to: &mut Writer) -> Result<&'a [Part], Halt>
        ensures kept { Kept to.old to.new }
        ensures rewrites { Rewriting k.If any self.entry.parts.now to.old to.new result }
    {
        let parts = self.parts;
        let test = parts[1];
        if test.kind != Kind::Truth {
            return Err(Halt::Stuck);
        }
        let (first, rest) = split_term(&parts[2..]);
        let (second, behind) = split_term(rest);
        let taken = if test.a == 0 { second } else { first };
        to.write(taken).map(|()| behind)
    }

    /// A match.
    fn on_match(self, to: &mut Writer) -> Result<&'a [Part], Halt>
        ensures kept { Kept to.old to.new }
        ensures rewrites { Rewriting k.Match any self.entry.parts.now to.old to.new result }
    {
        let parts = self.parts;
        let number = parts[1];
        match number.kind {
            Kind::Numeral => {
                let (zero, rest) = split_term(&parts[2..]);
                if number.a == 0 {
                    let behind = behind_term(rest);
                    to.write(zero).map(|()| behind)
                } else {
                    let lower = [Part {
                        kind: Kind::Numeral,
                        a: number.a - 1,
                        b: 0,
                    }];
                    to.put_value(rest, &lower)
                }
            }
            Kind::Successor => {
                let (number, rest) = split_term(&parts[2..]);
                to.put_value(behind_term(rest), number)
            }
            _ => Err(Halt::Stuck),
        }
    }

    /// An apply.
    fn on_apply(self, to: &mut Writer) -> Result<&'a [Part], Halt>
        ensures kept { Kept to.old to.new }
        ensures rewrites { Rewriting k.Apply any self.entry.parts.now to.old to.new result }
    {
        let parts = self.parts;
        if parts[1].kind != Kind::Function {
            return Err(Halt::Stuck);
        }
        let body = &parts[2..];
        let (argument, behind) = split_term(behind_term(body));
        to.put_value(body, argument).map(|_| behind)
    }

    /// A let rec.
    fn on_let_rec<S: Signatures>(self, signatures: &S, to: &mut Writer) -> Result<&'a [Part], Halt>
        ensures kept { Kept to.old to.new }
        ensures rewrites { Rewriting k.LetRec (under (S.Signatures.tables signatures.now)) self.entry.parts.now to.old to.new result }
    {
        let parts = self.parts;
        let (body, rest) = split_term(&parts[1..]);
        let head = [function(signatures.argument(parts[0].a) as u32), parts[0]];
        let unrolled = Runs {
            head: &head,
            first: body,
            second: body,
        };
        let values = Substitution {
            latest: unrolled,
            argument: &[],
        };
        to.put(rest, values)
    }

    /// A let over a val or a call.
    fn on_let(self, to: &mut Writer) -> Result<&'a [Part], Halt>
        ensures kept { Kept to.old to.new }
        ensures rewrites { Rewriting k.Let ready self.entry.parts.now to.old to.new result }
    {
        let parts = self.parts;
        match parts[1].kind {
            Kind::Val => {
                let (value, rest) = split_term(&parts[2..]);
                to.put_value(rest, value)
            }
            Kind::Call => {
                let [_, _, instance, ..] = parts else {
                    return Err(Halt::Stuck);
                };
                if instance.kind != Kind::Instance {
                    return Err(Halt::Stuck);
                }
                let (before, inner) = parts.split_at(1);
                let nested = Nested { before, inner };
                nested.pass(to)
            }
            _ => Err(Halt::Stuck),
        }
    }

    /// A with over a val or a call.
    fn on_with<S: Signatures>(self, signatures: &S, to: &mut Writer) -> Result<&'a [Part], Halt>
        ensures kept { Kept to.old to.new }
        ensures rewrites { Rewriting k.With (prepared (S.Signatures.tables signatures.now)) self.entry.parts.now to.old to.new result }
    {
        let parts = self.parts;
        if parts[1].kind != Kind::Handler {
            return Err(Halt::Stuck);
        }
        let body = &parts[2..];
        let inner = behind_term(&parts[1..]);
        if inner.len() < 2 {
            return Err(Halt::Stuck);
        }
        match inner[0].kind {
            Kind::Val => {
                let (value, behind) = split_term(&inner[1..]);
                to.put_value(body, value).map(|_| behind)
            }
            Kind::Call => {
                let before = &parts[..parts.len() - inner.len()];
                let nested = Nested { before, inner };
                nested.with_call(behind_term(body), signatures, to)
            }
            _ => Err(Halt::Stuck),
        }
    }
}

impl<'a> Nested<'a> {
    /// The call passes out of the let or the with that stands right before it.
    fn pass(self, to: &mut Writer) -> Result<&'a [Part], Halt>
        ensures kept { Kept to.old to.new }
        ensures passes { Passes self.entry.before.now self.entry.inner.now to.old to.new result }
    {
        let Nested { before, inner } = self;
        let behind = behind_term(&inner[2..]);
        // The call and its argument are one run: a slab that is too short for them is left as it was.
        let runs = Runs {
            head: &inner[..inner.len() - behind.len()],
            first: before,
            second: &[],
        };
        to.write_runs(runs).map(|()| behind)
    }

    /// With a handler over a call: by the body of a case, which opens `body`; `given` is the number of the type that the operation gives.
    fn with_case(self, body: &[Part], given: u32, to: &mut Writer) -> Result<&'a [Part], Halt>
        ensures kept { Kept to.old to.new }
        ensures rewrites { WithCase self.entry.before.now self.entry.inner.now body.now given to.old to.new result }
    {
        let Nested { before, inner } = self;
        let (argument, rest) = split_term(&inner[2..]);
        let (continuation, behind) = split_term(rest);
        // The with goes with the function that is made: a slab that has no room for both is left without either.
        let resumption = Runs {
            head: &[function(given), before[0]],
            first: &before[1..],
            second: continuation,
        };
        let values = Substitution {
            latest: resumption,
            argument,
        };
        to.put(body, values).map(|_| behind)
    }

    /// With a handler over a call: by the first case that names it, in the list that opens `cases`, or passed on.
    fn with_call<S: Signatures>(
        self,
        cases: &[Part],
        signatures: &S,
        to: &mut Writer,
    ) -> Result<&'a [Part], Halt>
        ensures kept { Kept to.old to.new }
        ensures rewrites { WithCall (S.Signatures.tables signatures.now) self.entry.before.now self.entry.inner.now cases.now to.old to.new result }
    {
        let inner = self.inner;
        let instance = inner[1];
        if instance.kind != Kind::Instance {
            return Err(Halt::Stuck);
        }
        match first_case(cases, instance.a, inner[0].b) {
            Some(body) => {
                let given = signatures.gives(inner[0].a, inner[0].b);
                self.with_case(body, given as u32, to)
            }
            None => self.pass(to),
        }
    }
}

/// Writes what stands for the redex that opens the parts, and tells what stands behind it.
pub(crate) fn rewrite<'a, S: Signatures>(
    parts: &'a [Part],
    signatures: &S,
    to: &mut Writer,
) -> Result<&'a [Part], Halt>
    ensures kept { Kept to.old to.new }
    ensures rewrites { RewritingAll (prepared (S.Signatures.tables signatures.now)) parts.now to.old to.new result }
{
    if parts.len() < 2 {
        return Err(Halt::Stuck);
    }
    let redex = Redex { parts };
    match parts[0].kind {
        Kind::If => redex.on_if(to),
        Kind::Match => redex.on_match(to),
        Kind::Apply => redex.on_apply(to),
        Kind::LetRec => redex.on_let_rec(signatures, to),
        Kind::Let => redex.on_let(to),
        Kind::With => redex.on_with(signatures, to),
        _ => Err(Halt::Stuck),
    }
}
