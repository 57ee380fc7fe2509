//! Tests of the ranges of columns.
use crate::refusing::refusal;
use std::test::Fail;
use table::read;

// A part in range.
const PART: &str = "0 14 0 0 2 0\n";

// Operations, instances and types, with one part in range, and the refusal.
const TABLES: &[(&str, &str, &str, u8, u64)] = &[
    ("", "", "", 0, 0),
    // operations
    ("0 0 3 3\n", "", "", 0, 0),
    ("0 0 4 2\n", "", "", 4, 2),
    ("0 0 1 4\n", "", "", 4, 2),
    ("0 0 1 2\n0 1 1 2\n0 2 1 2\n0 3 1 2\n", "", "", 0, 0),
    (
        "0 0 1 2\n0 1 1 2\n0 2 1 2\n0 3 1 2\n0 4 1 2\n",
        "",
        "",
        4,
        6,
    ),
    (
        "0 0 0 0\n1 0 0 0\n2 0 0 0\n3 0 0 0\n4 0 0 0\n5 0 0 0\n6 0 0 0\n7 0 0 0\n",
        "",
        "",
        0,
        0,
    ),
    (
        "0 0 0 0\n1 0 0 0\n2 0 0 0\n3 0 0 0\n4 0 0 0\n5 0 0 0\n6 0 0 0\n7 0 0 0\n8 0 0 0\n",
        "",
        "",
        4,
        10,
    ),
    // instances
    ("0 0 1 2\n", "0 0\n", "", 0, 0),
    ("0 0 1 2\n", "0 0\n1 1\n", "", 4, 6),
    // kinds of types, and types that are not smaller
    ("", "", "4 3 0 0 0 0\n", 4, 6),
    ("", "", "4 7 0 0 0 0\n", 4, 6),
    ("", "", "4 4 3 3 0 0\n", 0, 0),
    ("", "", "4 4 4 2 0 0\n", 4, 6),
    ("", "", "4 4 2 2 0 0\n5 6 2 5 0 0\n", 4, 7),
    // columns without a use
    ("", "", "4 4 2 2 1 0\n", 4, 6),
    ("0 0 1 2\n", "0 0\n", "4 5 0 1 1 0\n", 4, 8),
    ("0 0 1 2\n", "0 0\n", "4 5 0 1 0 1\n", 4, 8),
    // dirts: declared calls only
    ("", "", "4 4 2 2 0 1\n", 4, 6),
    ("0 0 1 2\n", "0 0\n", "4 4 2 2 0 1\n", 0, 0),
    ("0 0 1 2\n", "0 0\n", "4 4 2 2 0 2\n", 4, 8),
    ("0 0 1 2\n", "0 0\n", "4 6 2 2 16 0\n", 4, 8),
    ("0 0 1 2\n", "0 0\n1 0\n", "4 6 2 2 17 16\n", 0, 0),
    // regions: instances of the effect only
    (
        "0 0 1 2\n1 0 1 2\n",
        "0 0\n1 1\n",
        "4 5 0 0 0 0\n5 5 1 2 0 0\n",
        0,
        0,
    ),
    ("0 0 1 2\n1 0 1 2\n", "0 0\n1 1\n", "4 5 0 3 0 0\n", 4, 10),
    (
        "0 0 1 2\n1 0 1 2\n",
        "0 0\n1 1\n",
        "4 5 0 65536 0 0\n",
        4,
        10,
    ),
    ("0 0 1 2\n1 0 1 2\n", "0 0\n1 1\n", "4 5 2 0 0 0\n", 4, 10),
    // heights 12 and 13
    (
        "",
        "",
        "4 4 2 2 0 0\n5 4 4 2 0 0\n6 4 5 2 0 0\n7 4 6 2 0 0\n8 4 7 2 0 0\n9 4 8 2 0 0\n10 4 9 2 0 0\n11 4 10 2 0 0\n12 6 2 11 0 0\n13 4 12 2 0 0\n14 4 13 2 0 0\n",
        0,
        0,
    ),
    (
        "",
        "",
        "4 4 2 2 0 0\n5 4 4 2 0 0\n6 4 5 2 0 0\n7 4 6 2 0 0\n8 4 7 2 0 0\n9 4 8 2 0 0\n10 4 9 2 0 0\n11 4 10 2 0 0\n12 6 2 11 0 0\n13 4 12 2 0 0\n14 4 13 2 0 0\n15 4 2 14 0 0\n",
        4,
        17,
    ),
    // the earlier line of two
    ("0 0 4 2\n", "0 1\n", "4 0 0 0 0 0\n", 4, 2),
    ("0 0 1 2\n", "0 1\n", "4 0 0 0 0 0\n", 4, 5),
    ("", "", "4 4 2 2 0 0\n5 0 0 0 0 0\n6 0 0 0 0 0\n", 4, 7),
    // the text is refused first
    ("0 0 9 9\n", "0 9\n", "5 0 0 0 0 0\n", 3, 8),
    ("0 0 9 9\n", "0 9\n", "4 0 0 0 0\n", 1, 8),
];

#[test]
fn tables_in_range(rt: HostRuntime) -> Result<(), Fail> {
    for &(operations, instances, types, number, line) in TABLES {
        let text = sheet_text!(rt.alloc(), operations, instances, types, PART);
        assert_eq!(rt; refusal(read(text.as_bytes())), (number, line), "{}", types);
    }
    Ok(())
}

// A part over operation 0 of effect 0, instance 0, a function type 4 and an instance type 5: kind, a, b, type and dirt, and whether it is in range.
const PARTS: &[(u64, u64, u64, u64, u64, bool)] = &[
    (19, 0, 0, 0, 0, false),
    // a variable's place is not looked at
    (0, 18446744073709551615, 0, 2, 0, true),
    (0, 0, 1, 2, 0, false),
    (1, 1, 0, 0, 0, true),
    (1, 2, 0, 0, 0, false),
    (1, 0, 1, 0, 0, false),
    (2, 4294967295, 0, 1, 0, true),
    (2, 4294967296, 0, 1, 0, false),
    (2, 0, 1, 1, 0, false),
    (5, 0, 0, 5, 0, true),
    (5, 1, 0, 5, 0, false),
    (5, 0, 1, 5, 0, false),
    (6, 5, 0, 4, 0, true),
    (6, 6, 0, 4, 0, false),
    (6, 2, 1, 4, 0, false),
    (7, 3, 0, 4, 0, true),
    (7, 6, 0, 4, 0, false),
    (8, 0, 0, 0, 0, true),
    (8, 0, 1, 0, 0, false),
    (8, 1, 0, 0, 0, false),
    (8, 0, 0, 1, 0, false),
    (8, 0, 0, 0, 1, false),
    (15, 0, 0, 2, 1, true),
    (15, 0, 1, 2, 1, false),
    (15, 1, 0, 2, 1, false),
    (17, 4, 0, 2, 0, true),
    (17, 5, 0, 2, 0, false),
    (17, 2, 0, 2, 0, false),
    (17, 4, 1, 2, 0, false),
    // the type column names a type, and the dirt column is a dirt, 0 for an expression
    (4, 0, 0, 5, 0, true),
    (4, 0, 0, 6, 0, false),
    (0, 0, 0, 2, 1, false),
    (1, 1, 0, 0, 1, false),
    (2, 7, 0, 1, 1, false),
    (3, 0, 0, 1, 1, false),
    (4, 0, 0, 2, 1, false),
    (5, 0, 0, 5, 1, false),
    (6, 5, 0, 4, 1, false),
    (7, 3, 0, 4, 1, false),
    (9, 0, 0, 5, 1, true),
    (9, 0, 0, 6, 1, false),
    (9, 0, 0, 5, 2, false),
    (14, 0, 0, 2, 1, true),
    (14, 0, 0, 2, 16, false),
    (14, 0, 0, 18446744073709551615, 0, false),
    // columns without a use
    (3, 1, 0, 1, 0, false),
    (3, 0, 1, 1, 0, false),
    (4, 1, 0, 2, 0, false),
    (4, 0, 1, 2, 0, false),
    (7, 3, 1, 4, 0, false),
    (9, 1, 0, 5, 1, false),
    (9, 0, 1, 5, 1, false),
    (10, 1, 0, 2, 0, false),
    (10, 0, 1, 2, 0, false),
    (11, 1, 0, 2, 0, false),
    (11, 0, 1, 2, 0, false),
    (12, 1, 0, 2, 0, false),
    (12, 0, 1, 2, 0, false),
    (13, 1, 0, 2, 0, false),
    (13, 0, 1, 2, 0, false),
    (14, 1, 0, 2, 1, false),
    (14, 0, 1, 2, 1, false),
    (16, 1, 0, 2, 0, false),
    (16, 0, 1, 2, 0, false),
    (18, 1, 0, 2, 0, false),
    (18, 0, 1, 2, 0, false),
];

#[test]
fn parts_in_range(rt: HostRuntime) -> Result<(), Fail> {
    let heap = rt.alloc();
    for &(kind, a, b, ty, dirt, good) in PARTS {
        let part = format!(in heap; "0 14 0 0 2 0\n1 {kind} {a} {b} {ty} {dirt}\n")?;
        let text = sheet_text!(
            heap,
            "0 0 1 2\n",
            "0 0\n",
            "4 4 2 2 0 0\n5 5 0 1 0 0\n",
            &part
        );
        let expected = if good { (0, 0) } else { (5, 13) };
        assert_eq!(rt; refusal(read(text.as_bytes())), expected, "{}", &part);
    }
    Ok(())
}

// A type out of range is named before a part, and a part before the shape of the parts.
#[test]
fn tables_before_parts(rt: HostRuntime) -> Result<(), Fail> {
    let heap = rt.alloc();
    let types = "4 0 0 0 0 0\n";
    let text = sheet_text!(heap, "", "", types, "0 19 0 0 0 0\n");
    assert_eq!(rt; refusal(shape::read(text.as_bytes())), (4, 6));
    let text = sheet_text!(heap, "", "", "", "0 4 0 0 2 0\n1 19 0 0 0 0\n");
    assert_eq!(rt; refusal(shape::read(text.as_bytes())), (5, 9));
    Ok(())
}
