//! Tests of whole runs: recipes with slabs, an allowance and the report.
use cutter::cutter::Cutter;
use eff::kind::Kind;
use eff::part::Part;
use host::host::Host;
use host::mute::Mute;
use host::ration::Ration;
use machine::{Report, State};
use recipe::{Recipe, admit};
use runs::{Act, MOST, advance, conduct, make, test};
use std::test::Fail;

const OPERATIONS: &str = "0 0 1 2\n0 1 1 2\n0 2 2 1\n";

// The cutter knows the first one alone.
const INSTANCES: &str = "0 0\n1 0\n";

// The instances, functions of unit and of nat, and two handlers of feel: one that handles it, and one that leaves it.
const TYPES: &str =
    "4 5 0 1 0 0\n5 5 0 2 0 0\n6 4 2 2 0 0\n7 4 1 1 0 0\n8 6 1 1 4 0\n9 6 1 1 4 4\n";

// Cuts 130 micrometres, feels the depth, and ends with one more than was felt.
const WORKED: &str =
    "0 15 0 1 1 6\n1 5 0 0 4 0\n2 2 130 0 1 0\n3 15 0 2 1 4\n4 5 0 0 4 0\n5 4 0 0 2 0\n6 14 0 0 1 0\n7 3 0 0 1 0\n8 0 0 0 1 0\n";

// A recursion that never ends, of 10 and 7 parts by turns.
const FOREVER: &str =
    "0 17 6 0 2 0\n1 13 0 0 2 0\n2 0 0 0 6 0\n3 0 1 0 2 0\n4 13 0 0 2 0\n5 0 0 0 6 0\n6 4 0 0 2 0\n";

// A report: its state by name, its steps, how many questions it has put, and its two values.
type Line = (&'static str, u32, u32, u8, u64);

const REFUSED: Line = ("refused", 0, 0, 0, 0);

// The parts, the lengths of the slabs, the allowance, and the report over a fresh cutter.
const RUNS: &[(&str, usize, usize, u32, Line)] = &[
    // a val of each type, by no allowance too
    ("0 14 0 0 0 0\n1 1 1 0 0 0\n", 2, 2, 0, ("done", 0, 0, 0, 1)),
    ("0 14 0 0 0 0\n1 1 0 0 0 0\n", 2, 2, 9, ("done", 0, 0, 0, 0)),
    (
        "0 14 0 0 1 0\n1 3 0 0 1 0\n2 2 6 0 1 0\n",
        3,
        3,
        0,
        ("done", 0, 0, 1, 7),
    ),
    ("0 14 0 0 2 0\n1 4 0 0 2 0\n", 2, 2, 0, ("done", 0, 0, 2, 0)),
    (
        "0 14 0 0 6 0\n1 6 2 0 6 0\n2 14 0 0 2 0\n3 0 0 0 2 0\n",
        4,
        4,
        0,
        ("done", 0, 0, 4, 0),
    ),
    ("0 14 0 0 5 0\n1 5 1 0 5 0\n", 2, 2, 0, ("done", 0, 0, 5, 1)),
    (
        "0 14 0 0 9 0\n1 7 1 0 9 0\n2 14 0 0 1 4\n3 0 0 0 1 0\n4 9 0 0 1 4\n",
        5,
        5,
        0,
        ("done", 0, 0, 6, 0),
    ),
    // past the largest numeral, as a value and as an argument
    (
        "0 14 0 0 1 0\n1 3 0 0 1 0\n2 2 4294967295 0 1 0\n",
        3,
        3,
        1,
        ("done", 0, 0, 1, 0x1_0000_0000),
    ),
    (
        "0 15 0 1 2 2\n1 5 0 0 4 0\n2 3 0 0 1 0\n3 2 4294967295 0 1 0\n4 14 0 0 2 2\n5 0 0 0 2 0\n",
        6,
        6,
        9,
        ("stopped", 0, 1, 0, 1),
    ),
    // the deepest cut, a deeper one, and a deeper one after it
    (
        "0 15 0 1 2 2\n1 5 0 0 4 0\n2 2 6000 0 1 0\n3 14 0 0 2 2\n4 0 0 0 2 0\n",
        5,
        5,
        9,
        ("done", 1, 1, 2, 0),
    ),
    (
        "0 15 0 1 2 2\n1 5 0 0 4 0\n2 2 6001 0 1 0\n3 14 0 0 2 2\n4 0 0 0 2 0\n",
        5,
        5,
        9,
        ("stopped", 0, 1, 0, 1),
    ),
    (
        "0 15 0 1 2 2\n1 5 0 0 4 0\n2 2 6000 0 1 0\n3 15 0 1 2 2\n4 5 0 0 4 0\n5 2 6001 0 1 0\n6 14 0 0 2 2\n7 0 0 0 2 0\n",
        8,
        8,
        9,
        ("stopped", 1, 2, 0, 1),
    ),
    // a call of an instance that the cutter does not know, and one without an allowance
    (
        "0 15 0 2 1 64\n1 5 1 0 5 0\n2 4 0 0 2 0\n3 14 0 0 1 64\n4 0 0 0 1 0\n",
        5,
        5,
        9,
        ("stopped", 0, 1, 1, 2),
    ),
    (
        "0 15 0 2 1 64\n1 5 1 0 5 0\n2 4 0 0 2 0\n3 14 0 0 1 64\n4 0 0 0 1 0\n",
        5,
        5,
        0,
        ("paused", 0, 0, 0, 0),
    ),
    // the worked recipe, allowance by allowance
    (WORKED, 9, 9, 0, ("paused", 0, 0, 0, 0)),
    (WORKED, 9, 9, 1, ("paused", 1, 1, 0, 0)),
    (WORKED, 9, 9, 2, ("done", 2, 2, 1, 151)),
    (WORKED, 512, 512, 1_000_000, ("done", 2, 2, 1, 151)),
    // feel under a handler that answers 7 itself, and under one that leaves it
    (
        "0 18 0 0 1 0\n1 7 1 0 8 0\n2 14 0 0 1 0\n3 0 0 0 1 0\n4 8 0 2 0 0\n5 5 0 0 4 0\n6 13 0 0 1 0\n7 0 0 0 7 0\n8 2 7 0 1 0\n9 9 0 0 1 0\n10 15 0 2 1 4\n11 5 0 0 4 0\n12 4 0 0 2 0\n13 14 0 0 1 0\n14 3 0 0 1 0\n15 0 0 0 1 0\n",
        17,
        17,
        9,
        ("done", 3, 0, 1, 8),
    ),
    (
        "0 18 0 0 1 4\n1 7 1 0 9 0\n2 14 0 0 1 0\n3 0 0 0 1 0\n4 9 0 0 1 4\n5 15 0 2 1 4\n6 5 0 0 4 0\n7 4 0 0 2 0\n8 14 0 0 1 0\n9 0 0 0 1 0\n",
        10,
        10,
        9,
        ("done", 3, 1, 1, 0),
    ),
    // paused, and full, by the shorter slab
    (FOREVER, 10, 10, 5, ("paused", 5, 0, 0, 0)),
    (FOREVER, 10, 12, 6, ("paused", 6, 0, 0, 0)),
    (FOREVER, 12, 10, 6, ("paused", 6, 0, 0, 0)),
    (FOREVER, 9, 9, 5, ("full", 0, 0, 0, 0)),
    (FOREVER, 9, 12, 5, ("full", 0, 0, 0, 0)),
    (FOREVER, 12, 9, 5, ("full", 0, 0, 0, 0)),
    (FOREVER, 9, 9, 0, ("paused", 0, 0, 0, 0)),
    (FOREVER, MOST, MOST, 1_000, ("paused", 1_000, 0, 0, 0)),
    // refused: a slab too short, a slab too long, an empty place
    (FOREVER, 6, 7, 5, REFUSED),
    (FOREVER, 7, 6, 5, REFUSED),
    (FOREVER, 7, 16385, 5, REFUSED),
    (FOREVER, 16385, 7, 5, REFUSED),
    (FOREVER, 0, 0, 5, REFUSED),
    ("", 512, 512, 5, REFUSED),
];

const ROOM: usize = 16385;

// The words of states stand here again: a report written out is longer than its five values, and its words by `Display` would first be written.
fn line(report: Report) -> Line {
    let word = match report.state {
        State::Refused => "refused",
        State::Paused => "paused",
        State::Done(_) => "done",
        State::Stopped(_) => "stopped",
        State::Full => "full",
        State::Limit => "limit",
    };
    (word, report.steps, report.asked, report.a(), report.b())
}

// The report after one advance.
fn once<'a, H: Host>(
    recipe: &'a Recipe,
    first: &'a mut [Part],
    second: &'a mut [Part],
    host: &mut H,
    allowance: u32,
) -> Line {
    line(advance(make(recipe, first, second), host, allowance).read())
}

// The report after three advances by a part of the allowance each.
fn split<'a, H: Host>(
    recipe: &'a Recipe,
    first: &'a mut [Part],
    second: &'a mut [Part],
    host: &mut H,
    allowance: u32,
) -> Line {
    let third = allowance / 3;
    let acts = [
        Act::Advance(third),
        Act::Advance(third),
        Act::Read,
        Act::Advance(allowance - third - third),
    ];
    line(conduct(recipe, first, second, host, &acts, &mut []).read())
}

// Whether a sheet's recipe can start in slabs of these lengths, and its two reports over a fresh cutter.
fn reports(sheet: &[u8], one: usize, other: usize, allowance: u32) -> (bool, Line, Line) {
    let mut place = Recipe::empty();
    let _ = admit(sheet, &mut place);
    let mut first = [Part::default(); ROOM];
    let mut second = [Part::default(); ROOM];
    let first = &mut first[0..one.min(ROOM)];
    let second = &mut second[0..other.min(ROOM)];
    (
        test(&place, first, second).is_ok(),
        once(&place, first, second, &mut Cutter::fresh(), allowance),
        split(&place, first, second, &mut Cutter::fresh(), allowance),
    )
}

#[test]
fn runs(rt: HostRuntime) -> Result<(), Fail> {
    let heap = rt.alloc();
    for &(parts, one, other, allowance, expected) in RUNS {
        let text = sheet_text!(heap, OPERATIONS, INSTANCES, TYPES, parts);
        assert_eq!(rt;
            reports(text.as_bytes(), one, other, allowance),
            (expected != REFUSED, expected, expected),
            "{}",
            parts
        );
    }
    Ok(())
}

// The counts of an outer and an inner ration over a fresh cutter, and the report of the worked recipe.
const RATIONS: &[(u16, u16, Line)] = &[
    (2, 2, ("done", 2, 2, 1, 151)),
    (1, 2, ("stopped", 1, 2, 0, 2)),
    (2, 1, ("stopped", 1, 2, 0, 2)),
    (0, 2, ("stopped", 0, 1, 0, 1)),
    (2, 0, ("stopped", 0, 1, 0, 1)),
];

// The report of a recipe over a host, in slabs of 9 parts.
fn over<H: Host>(recipe: &Recipe, host: &mut H) -> Line {
    let mut first = [Part::default(); 9];
    let mut second = [Part::default(); 9];
    once(recipe, &mut first, &mut second, host, 9)
}

// The kinds of the first parts of a run after one step.
fn opening<'a>(recipe: &'a Recipe, first: &'a mut [Part], second: &'a mut [Part]) -> [Kind; 7] {
    let run = advance(make(recipe, first, second), &mut Cutter::fresh(), 1);
    let mut kinds = [Kind::default(); 7];
    for (kind, part) in kinds.iter_mut().zip(run.first()) {
        *kind = part.kind;
    }
    kinds
}

#[test]
fn worked_recipe(rt: HostRuntime) {
    let mut place = Recipe::empty();
    let _ = admit(worked::worked_sheet(), &mut place);
    for &(outer, inner, expected) in RATIONS {
        let mut host = Ration::new(Ration::new(Cutter::fresh(), inner), outer);
        assert_eq!(rt; over(&place, &mut host), expected);
    }
    assert_eq!(rt; over(&place, &mut Mute), ("stopped", 0, 1, 0, 1));
    // After its cut it feels, in six parts; behind them a nil stands as before
    let mut first = [Part::default(); 9];
    let mut second = [Part::default(); 9];
    assert_eq!(rt;
        opening(&place, &mut first, &mut second),
        [
            Kind::Call,
            Kind::Instance,
            Kind::Unit,
            Kind::Val,
            Kind::Successor,
            Kind::Variable,
            Kind::Nil,
        ]
    );
}
