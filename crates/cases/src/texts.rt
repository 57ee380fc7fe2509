//! Tests of the text layer.
use crate::refusing::refusal;
use sheet::read;
use std::alloc::Global;
use std::test::Fail;

// Whole texts.
const TEXTS: &[(&str, u64)] = &[
    ("", 1),
    ("effect op takes gives", 1),
    ("effect op takes gives\r\n", 1),
    ("effect op takes\n", 1),
    ("effect op takes gives grade\n", 1),
    ("instance effect\n", 1),
    ("effect op takes gives\n\ninstance\n", 3),
    (
        "effect op takes gives\n\ninstance effect\n\ntype kind a b d\n",
        5,
    ),
    (
        "effect op takes gives\n\ninstance effect\n\ntype kind a b d e\n\npart kind a b dirt type\n",
        7,
    ),
    (
        "effect op takes gives\n\ninstance effect\n\ntype kind a b d e\n\npart kind a b type dirt\n0 14 0 0 2 0\n",
        9,
    ),
    (
        "effect op takes gives\n\ninstance effect\n\ntype kind a b d e\n\npart kind a b type dirt\n0 14 0 0 2 0",
        8,
    ),
    (
        "effect op takes gives\n\ninstance effect\n\ntype kind a b d e\n\npart kind a b type dirt\n0 14 0 0 2 0\n\n\n",
        10,
    ),
    (
        "effect op takes gives\n\ninstance effect\n\ntype kind a b d e\n\npart kind a b type dirt\n0 14 0 0 2 0\n\n ",
        10,
    ),
];

#[test]
fn texts_out_of_form(rt: HostRuntime) {
    for &(text, line) in TEXTS {
        assert_eq!(rt; refusal(read(text.as_bytes())), (1, line), "{}", text);
    }
}

// The rows of each table, and the refusal.
const ROWS: &[(&str, &str, &str, &str, u8, u64)] = &[
    // in form, within the rooms and in turn
    (
        "0 0 1 2\n",
        "0 0\n",
        "4 5 0 1 0 0\n",
        "0 14 0 0 2 0\n",
        0,
        0,
    ),
    ("", "", "", "0 0 0 0 0 18446744073709551615\n", 0, 0),
    (
        "0 0 9 9\n0 1 0 0\n1 0 0 0\n",
        "0 9\n1 0\n",
        "4 0 0 0 0 0\n5 9 9 9 9 9\n",
        "0 99 0 0 0 0\n1 0 0 0 0 0\n",
        0,
        0,
    ),
    // a column missing, and one too many
    ("0 0 1\n", "", "", "0 14 0 0 2 0\n", 1, 2),
    ("0 0 1 2 3\n", "", "", "0 14 0 0 2 0\n", 1, 2),
    ("", "0\n", "", "0 14 0 0 2 0\n", 1, 4),
    ("", "0 0 0\n", "", "0 14 0 0 2 0\n", 1, 4),
    ("", "", "4 5 0 1 0\n", "0 14 0 0 2 0\n", 1, 6),
    ("", "", "4 5 0 1 0 0 0\n", "0 14 0 0 2 0\n", 1, 6),
    ("", "", "", "0 14 0 0 2\n", 1, 8),
    ("", "", "", "0 14 0 0 2 0 0\n", 1, 8),
    // values
    ("0 0 1 02\n", "", "", "0 14 0 0 2 0\n", 1, 2),
    ("0 00 1 2\n", "", "", "0 14 0 0 2 0\n", 1, 2),
    ("", "", "", "0 14 18446744073709551616 0 2 0\n", 1, 8),
    ("", "", "", "0 14 18446744073709551615 0 2 0\n", 0, 0),
    ("", "", "", "0 14 99999999999999999999 0 2 0\n", 1, 8),
    ("", "", "", "0  14 0 0 2 0\n", 1, 8),
    ("", "", "", "0 14 0 0 2 0 \n", 1, 8),
    ("", "", "", " 0 14 0 0 2 0\n", 1, 8),
    ("", "", "", "0 14 0 -1 2 0\n", 1, 8),
    ("", "", "", "0 14 0 0 2 0\r\n", 1, 8),
    // no part, named before a row out of turn
    ("", "", "", "", 2, 8),
    ("0 1 1 2\n", "", "", "", 2, 9),
    // out of turn
    ("0 1 1 2\n", "", "", "0 14 0 0 2 0\n", 3, 2),
    ("0 0 1 2\n0 0 1 2\n", "", "", "0 14 0 0 2 0\n", 3, 3),
    ("0 0 1 2\n2 0 1 2\n", "", "", "0 14 0 0 2 0\n", 3, 3),
    ("0 0 1 2\n1 1 1 2\n", "", "", "0 14 0 0 2 0\n", 3, 3),
    ("", "1 0\n", "", "0 14 0 0 2 0\n", 3, 4),
    (
        "",
        "0 0\n",
        "4 5 0 0 0 0\n6 5 0 0 0 0\n",
        "0 14 0 0 2 0\n",
        3,
        8,
    ),
    (
        "0 0 1 2\n",
        "0 0\n",
        "4 5 0 0 0 0\n",
        "0 14 0 0 2 0\n2 0 0 0 2 0\n",
        3,
        12,
    ),
    // two faults: the earlier refusal at the later line, and the earlier line of one refusal
    ("0 1 1 2\n", "", "", "0 14 0 0 2 x\n", 1, 9),
    (
        "0 1 1 2\n",
        "5 0\n",
        "5 0 0 0 0 0\n",
        "5 14 0 0 2 0\n",
        3,
        2,
    ),
];

#[test]
fn rows_of_each_table(rt: HostRuntime) -> Result<(), Fail> {
    for &(operations, instances, types, parts, number, line) in ROWS {
        let text = sheet_text!(rt.alloc(), operations, instances, types, parts);
        assert_eq!(rt; refusal(read(text.as_bytes())), (number, line), "{}", parts);
    }
    Ok(())
}

// So many rows: each is `before`, a number counted from `first`, and `after`.
fn rows(heap: Global, before: &str, first: u32, count: u32, after: &str) -> Result<String, Fail> {
    let mut text = String::new(heap);
    let first = first as u64;
    for number in first..first + count as u64 {
        write!(text, "{before}{number}{after}\n")?;
    }
    Ok(text)
}

// A sheet with so many rows in each table, in turn.
fn sized(
    heap: Global,
    operations: u32,
    instances: u32,
    types: u32,
    parts: u32,
) -> Result<String, Fail> {
    let operations = rows(heap, "0 ", 0, operations, " 0 0")?;
    let instances = rows(heap, "", 0, instances, " 0")?;
    let types = rows(heap, "", 4, types, " 0 0 0 0 0")?;
    let parts = rows(heap, "", 0, parts, " 0 0 0 0 0")?;
    Ok(sheet_text!(heap, operations, instances, types, parts))
}

// How many rows each table has, and the refusal.
const SIZES: &[(u32, u32, u32, u32, u8, u64)] = &[
    (32, 16, 252, 1024, 0, 0),
    (33, 0, 0, 1, 2, 34),
    (32, 17, 0, 1, 2, 52),
    (32, 16, 253, 1, 2, 306),
    (32, 16, 252, 1025, 2, 1332),
    (32, 16, 252, 0, 2, 308),
    (33, 17, 253, 1025, 2, 34),
];

#[test]
fn sizes(rt: HostRuntime) -> Result<(), Fail> {
    for &(operations, instances, types, parts, number, line) in SIZES {
        let text = sized(rt.alloc(), operations, instances, types, parts)?;
        assert_eq!(rt; refusal(read(text.as_bytes())), (number, line));
    }
    Ok(())
}

#[test]
fn worked(rt: HostRuntime) -> Result<(), Fail> {
    let t = read(worked::worked_sheet())?;
    assert_eq!(rt; t.operations.len(), 3);
    assert_eq!(rt; t.instances.len(), 1);
    assert_eq!(rt; t.types.len(), 1);
    assert_eq!(rt; t.parts.len(), 9);
    let part = *t.parts.listed().get(2).ok_or("no third part")?;
    assert_eq!(rt; (part.kind, part.a, part.ty), (2, 130, 1));
    Ok(())
}
