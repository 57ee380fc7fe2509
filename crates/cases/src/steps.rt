//! Tests of one step: every rule once, through parts.
ghost use Rattle.std.specs.Prelude.{[]};
ghost use Rattle.eff.specs.Tables.{Tables};

use eff::ground::Ground;
use eff::kind::Kind;
use eff::part::Part;
use eff::question::{Call, Question, Value};
use eff::signatures::Signatures;
use step::{Asking, Computation, Halt, Outcome, Shown, front, is_computation, resume, step};

// Tables that declare nothing: an operation gives unit, and a function takes bool.
struct Empty;

impl Signatures for Empty {
    ghost tables = { λ _. record { operations = []; instances = []; types = [] } };

    fn gives(&self, _effect: u32, _op: u8) -> u8 {
        u8::from(Ground::Unit)
    }

    fn argument(&self, _function: u32) -> u8 {
        u8::from(Ground::Bool)
    }
}

// A part's kind and column a.
type Pair = (Kind, u32);

const VAL: Pair = (Kind::Val, 0);

const UNIT: Pair = (Kind::Unit, 0);

const TRUE: Pair = (Kind::Truth, 1);

const FALSE: Pair = (Kind::Truth, 0);

const ZERO: Pair = (Kind::Numeral, 0);

const FOUR: Pair = (Kind::Numeral, 4);

const FIVE: Pair = (Kind::Numeral, 5);

const MORE: Pair = (Kind::Successor, 0);

const X: Pair = (Kind::Variable, 0);

const Y: Pair = (Kind::Variable, 1);

const IF: Pair = (Kind::If, 0);

const MATCH: Pair = (Kind::Match, 0);

const APPLY: Pair = (Kind::Apply, 0);

const LET: Pair = (Kind::Let, 0);

const WITH: Pair = (Kind::With, 0);

const HANDLER: Pair = (Kind::Handler, 1);

const CASE: Pair = (Kind::Case, 0);

const NIL: Pair = (Kind::Nil, 0);

const CALL: Pair = (Kind::Call, 0);

const INSTANCE: Pair = (Kind::Instance, 3);

const ROOM: usize = 24;

// The parts of these pairs, which begin the slab.
fn slab_of(pairs: &[Pair]) -> [Part; ROOM] {
    let mut parts = [Part::default(); ROOM];
    for (part, (kind, a)) in parts.iter_mut().zip(pairs) {
        *part = Part {
            kind: *kind,
            a: *a,
            b: 0,
        };
    }
    parts
}

// The first parts of a slab, to be written.
fn room(slab: &mut [Part], size: usize) -> &mut [Part] {
    let size = size.min(slab.len());
    &mut slab[..size]
}

// A computation, and its next one.
const RULES: &[(&[Pair], &[Pair])] = &[
    // if
    (&[IF, TRUE, VAL, UNIT, VAL, ZERO], &[VAL, UNIT]),
    (&[IF, FALSE, VAL, UNIT, VAL, ZERO], &[VAL, ZERO]),
    // match
    (&[MATCH, ZERO, VAL, UNIT, VAL, X], &[VAL, UNIT]),
    (&[MATCH, FIVE, VAL, UNIT, VAL, X], &[VAL, FOUR]),
    (&[MATCH, MORE, FIVE, VAL, UNIT, VAL, X], &[VAL, FIVE]),
    // apply
    (
        &[APPLY, (Kind::Function, 1), VAL, X, MORE, FIVE],
        &[VAL, MORE, FIVE],
    ),
    // let over a val, over a call, and over what steps
    (&[LET, VAL, FIVE, VAL, MORE, X], &[VAL, MORE, FIVE]),
    (
        &[LET, CALL, INSTANCE, FIVE, VAL, X, VAL, X],
        &[CALL, INSTANCE, FIVE, LET, VAL, X, VAL, X],
    ),
    (
        &[LET, WITH, HANDLER, VAL, X, NIL, VAL, FIVE, VAL, X],
        &[LET, VAL, FIVE, VAL, X],
    ),
    // let rec
    (
        &[(Kind::LetRec, 4), APPLY, X, UNIT, APPLY, X, UNIT],
        &[
            APPLY,
            (Kind::Function, 0),
            (Kind::LetRec, 4),
            APPLY,
            X,
            UNIT,
            APPLY,
            X,
            UNIT,
            UNIT,
        ],
    ),
    // with over what steps
    (
        &[WITH, HANDLER, VAL, X, NIL, IF, TRUE, VAL, FIVE, VAL, ZERO],
        &[WITH, HANDLER, VAL, X, NIL, VAL, FIVE],
    ),
    // with over a call that two cases name, and over one that the second alone names
    (
        &[
            WITH, HANDLER, VAL, X, CASE, INSTANCE, VAL, FOUR, CASE, INSTANCE, VAL, ZERO, NIL, CALL,
            INSTANCE, FIVE, VAL, X,
        ],
        &[VAL, FOUR],
    ),
    (
        &[
            WITH,
            HANDLER,
            VAL,
            X,
            CASE,
            (Kind::Instance, 4),
            VAL,
            FOUR,
            CASE,
            INSTANCE,
            VAL,
            ZERO,
            NIL,
            CALL,
            INSTANCE,
            FIVE,
            VAL,
            X,
        ],
        &[VAL, ZERO],
    ),
    // with over a val, over a call that a case names, and over one that none names
    (&[WITH, HANDLER, VAL, X, NIL, VAL, FIVE], &[VAL, FIVE]),
    (
        &[
            WITH, HANDLER, VAL, X, CASE, INSTANCE, APPLY, X, Y, NIL, CALL, INSTANCE, FIVE, VAL, X,
        ],
        &[
            APPLY,
            (Kind::Function, 2),
            WITH,
            HANDLER,
            VAL,
            X,
            CASE,
            INSTANCE,
            APPLY,
            X,
            Y,
            NIL,
            VAL,
            X,
            FIVE,
        ],
    ),
    (
        &[WITH, HANDLER, VAL, X, NIL, CALL, INSTANCE, FIVE, VAL, X],
        &[CALL, INSTANCE, FIVE, WITH, HANDLER, VAL, X, NIL, VAL, X],
    ),
];

// The next computation is written where there is room for just it, and not where there is room for one part less.
#[test]
fn rules(rt: HostRuntime) {
    for &(pairs, next) in RULES {
        let slab = slab_of(pairs);
        let parts = front(&slab, pairs.len());
        assert!(rt; is_computation(parts));
        let mut to = [Part::default(); ROOM];
        let size = next.len();
        assert_eq!(rt;
            step(Computation { parts }, room(&mut to, size), &Empty),
            Ok(Outcome::Next(size))
        );
        assert_eq!(rt; front(&to, size), front(&slab_of(next), size));
        assert_eq!(rt;
            step(
                Computation { parts },
                room(&mut to, size.wrapping_sub(1)),
                &Empty
            ),
            Err(Halt::Full)
        );
    }
}

// A computation that rests, what is shown of it, and the two numbers of that.
const VALUES: &[(&[Pair], Shown, u8, u64)] = &[
    (&[VAL, MORE, FIVE], Shown::Ground(Value::Count(6)), 1, 6),
    (&[VAL, TRUE], Shown::Ground(Value::Truth(true)), 0, 1),
    (&[VAL, (Kind::Instance, 7)], Shown::Instance(7), 5, 7),
];

#[test]
fn values(rt: HostRuntime) {
    for &(pairs, shown, kind, number) in VALUES {
        let slab = slab_of(pairs);
        let parts = front(&slab, pairs.len());
        assert!(rt; is_computation(parts));
        assert_eq!(rt;
            step(Computation { parts }, &mut [], &Empty),
            Ok(Outcome::Value(shown))
        );
        assert_eq!(rt; shown.kind(), kind);
        assert_eq!(rt; shown.number(), number);
    }
}

const STUCK: &[Pair] = &[IF, FIVE, VAL, UNIT, VAL, ZERO];

#[test]
fn stuck(rt: HostRuntime) {
    let slab = slab_of(STUCK);
    let parts = front(&slab, STUCK.len());
    assert!(rt; is_computation(parts));
    assert_eq!(rt;
        step(Computation { parts }, &mut [], &Empty),
        Err(Halt::Stuck)
    );
}

const ASKING: &[Pair] = &[CALL, INSTANCE, FIVE, VAL, X];

#[test]
fn questions(rt: HostRuntime) {
    let slab = slab_of(ASKING);
    let parts = front(&slab, ASKING.len());
    assert!(rt; is_computation(parts));
    let mut to = [Part::default(); ROOM];
    let asking = Asking {
        question: Question {
            call: Call { instance: 3, op: 0 },
            argument: Value::Count(5),
            wanted: Ground::Unit,
        },
        continuation: &parts[3..],
    };
    assert_eq!(rt;
        step(Computation { parts }, &mut to, &Empty),
        Ok(Outcome::Asks(asking))
    );
    let parts = asking.continuation;
    assert!(rt; is_computation(parts));
    assert_eq!(rt;
        resume(Computation { parts }, Value::Unit, &mut [Part::default()]),
        None
    );
    assert_eq!(rt;
        resume(Computation { parts }, Value::Unit, &mut to),
        Some(2)
    );
    assert_eq!(rt; front(&to, 2), front(&slab_of(&[VAL, UNIT]), 2));
}

// Parts that are no computation's: too few, too many, of another sort, with a column out of use, a truth past 1.
const OTHERS: &[&[Pair]] = &[
    &[],
    &[VAL],
    &[VAL, UNIT, UNIT],
    &[UNIT],
    &[VAL, VAL, UNIT],
    &[VAL, (Kind::Unit, 1)],
    &[VAL, (Kind::Truth, 2)],
];

#[test]
fn no_computation(rt: HostRuntime) {
    for &pairs in OTHERS {
        assert!(rt; !is_computation(front(&slab_of(pairs), pairs.len())));
    }
}
