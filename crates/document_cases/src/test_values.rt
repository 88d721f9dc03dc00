// The values of tests. The first test of a document stands at 11, and a second one 10 bytes behind it.
use crate::fields::document_with;
use crate::rows::{Refused, check_row};
use std::process::Abort;
use std::test::Fail;

// Codes as numbers, since many of them stand for nothing.
/// A label; the test's kind, which, relation and entry; and the refusal of it as a first test, or none.
/// The which of a family has the family in its high byte and the member in its low one.
#[derive(Clone, Copy)]
pub struct TestRow(
    pub &'static str,
    pub u8,
    pub u16,
    pub u8,
    pub u16,
    pub Option<Refused>,
);

static TESTS: &[TestRow] = &[
    TestRow("kind 0", 0, 1, 0, 0, Some(Refused(4, 11))),
    TestRow("kind 7, a DELAY", 7, 1, 0, 0, Some(Refused(4, 11))),
    TestRow("kind 8", 8, 1, 0, 0, Some(Refused(4, 11))),
    TestRow("kind 255", 255, 1, 0, 0, Some(Refused(4, 11))),
    TestRow("input cell 0", 1, 0, 0, 0, None),
    TestRow("input cell 575", 1, 575, 1, 0, None),
    TestRow("input cell 576", 1, 576, 1, 0, Some(Refused(4, 11))),
    TestRow("input cell 65535", 1, 65535, 1, 0, Some(Refused(4, 11))),
    TestRow("output cell 0", 2, 0, 0, 0, None),
    TestRow("output cell 576", 2, 576, 0, 0, None),
    TestRow("output cell 767", 2, 767, 1, 0, None),
    TestRow("output cell 768", 2, 768, 1, 0, Some(Refused(4, 11))),
    TestRow("output cell 65535", 2, 65535, 1, 0, Some(Refused(4, 11))),
    TestRow("flag 0", 3, 0, 0, 0, Some(Refused(4, 11))),
    TestRow("flag 1", 3, 1, 0, 0, None),
    TestRow("flag 64", 3, 64, 1, 0, None),
    TestRow("flag 65", 3, 65, 1, 0, Some(Refused(4, 11))),
    TestRow("flag 257", 3, 257, 1, 0, Some(Refused(4, 11))),
    TestRow("family 0", 4, 0x0001, 1, 0, Some(Refused(4, 11))),
    TestRow("family 1", 4, 0x0101, 1, 0, None),
    TestRow("family 30", 4, 0x1E01, 1, 0, None),
    TestRow("family 31", 4, 0x1F01, 1, 0, Some(Refused(4, 11))),
    TestRow("family 31, member 0", 4, 0x1F00, 1, 0, Some(Refused(4, 11))),
    TestRow("family 255", 4, 0xFF01, 1, 0, Some(Refused(4, 11))),
    TestRow("family 1, member 0", 4, 0x0100, 1, 0, None),
    TestRow("family 1, member 16", 4, 0x0110, 1, 0, None),
    TestRow("family 1, member 17", 4, 0x0111, 1, 0, Some(Refused(4, 11))),
    TestRow("family 16, member 0", 4, 0x1000, 1, 0, Some(Refused(4, 11))),
    TestRow("family 16, member 1", 4, 0x1001, 1, 0, None),
    TestRow("family 16, member 64", 4, 0x1040, 1, 0, None),
    TestRow(
        "family 16, member 65",
        4,
        0x1041,
        1,
        0,
        Some(Refused(4, 11)),
    ),
    TestRow("family 21, member 4", 4, 0x1504, 1, 0, None),
    TestRow("family 21, member 5", 4, 0x1505, 1, 0, Some(Refused(4, 11))),
    TestRow("family 30, member 10", 4, 0x1E0A, 1, 0, None),
    TestRow(
        "family 30, member 11",
        4,
        0x1E0B,
        1,
        0,
        Some(Refused(4, 11)),
    ),
    TestRow("statement 0", 5, 0, 0, 0, Some(Refused(4, 11))),
    TestRow("statement 1", 5, 1, 0, 0, None),
    TestRow("statement 100", 5, 100, 1, 0, None),
    TestRow("statement 101", 5, 101, 1, 0, Some(Refused(4, 11))),
    TestRow("statement 257", 5, 257, 1, 0, Some(Refused(4, 11))),
    TestRow("number 0", 6, 0, 0, 0, None),
    TestRow("number 175", 6, 175, 0, 1, None),
    TestRow("number 176", 6, 176, 0, 1, Some(Refused(4, 11))),
    TestRow("number 256", 6, 256, 0, 1, Some(Refused(4, 11))),
    TestRow(
        "relation 2 of an input cell",
        1,
        1,
        2,
        0,
        Some(Refused(4, 11)),
    ),
    TestRow(
        "relation 3 of an input cell",
        1,
        1,
        3,
        0,
        Some(Refused(4, 11)),
    ),
    TestRow("relation 1 of an output cell", 2, 1, 1, 0, None),
    TestRow(
        "relation 2 of an output cell",
        2,
        1,
        2,
        0,
        Some(Refused(4, 11)),
    ),
    TestRow("relation 2 of a flag", 3, 1, 2, 0, Some(Refused(4, 11))),
    TestRow(
        "relation 2 of a family",
        4,
        0x0101,
        2,
        0,
        Some(Refused(4, 11)),
    ),
    TestRow(
        "relation 2 of a statement",
        5,
        1,
        2,
        0,
        Some(Refused(4, 11)),
    ),
    TestRow(
        "relation 255 of a statement",
        5,
        1,
        255,
        0,
        Some(Refused(4, 11)),
    ),
    TestRow("relation 1 of a number", 6, 24, 1, 3, None),
    TestRow("relation 2 of a number", 6, 24, 2, 3, None),
    TestRow("relation 3 of a number", 6, 24, 3, 3, None),
    TestRow("relation 4 of a number", 6, 24, 4, 3, Some(Refused(4, 11))),
    TestRow(
        "relation 255 of a number",
        6,
        24,
        255,
        3,
        Some(Refused(4, 11)),
    ),
    TestRow("entry 1 of an input cell", 1, 1, 1, 1, Some(Refused(4, 11))),
    TestRow(
        "entry 256 of an input cell",
        1,
        1,
        1,
        256,
        Some(Refused(4, 11)),
    ),
    TestRow(
        "entry 1 of an output cell",
        2,
        1,
        1,
        1,
        Some(Refused(4, 11)),
    ),
    TestRow("entry 1 of a flag", 3, 1, 1, 1, Some(Refused(4, 11))),
    TestRow("entry 1 of a family", 4, 0x0101, 1, 1, Some(Refused(4, 11))),
    TestRow("entry 1 of a statement", 5, 1, 1, 1, Some(Refused(4, 11))),
    TestRow("entry 255 of number 0", 6, 0, 2, 255, None),
    TestRow("entry 256 of number 0", 6, 0, 2, 256, Some(Refused(4, 11))),
    TestRow("entry 120 of number 24", 6, 24, 0, 120, None),
    TestRow(
        "entry 121 of number 24",
        6,
        24,
        0,
        121,
        Some(Refused(4, 11)),
    ),
    TestRow("entry 999 of number 25", 6, 25, 0, 999, None),
    TestRow(
        "entry 1000 of number 25",
        6,
        25,
        0,
        1000,
        Some(Refused(4, 11)),
    ),
    TestRow("entry 0 of number 33", 6, 33, 0, 0, Some(Refused(4, 11))),
    TestRow("entry 1 of number 33", 6, 33, 0, 1, None),
    TestRow("entry 12 of number 33", 6, 33, 0, 12, None),
    TestRow("entry 13 of number 33", 6, 33, 0, 13, Some(Refused(4, 11))),
    TestRow("entry 59 of number 38", 6, 38, 3, 59, None),
    TestRow("entry 60 of number 38", 6, 38, 3, 60, Some(Refused(4, 11))),
    TestRow("entry 9 of number 39", 6, 39, 1, 9, None),
    TestRow("entry 10 of number 39", 6, 39, 1, 10, Some(Refused(4, 11))),
    TestRow("entry 2047 of number 40", 6, 40, 2, 2047, None),
    TestRow(
        "entry 2048 of number 40",
        6,
        40,
        2,
        2048,
        Some(Refused(4, 11)),
    ),
    TestRow("entry 999 of number 104", 6, 104, 2, 999, None),
    TestRow(
        "entry 1000 of number 104",
        6,
        104,
        2,
        1000,
        Some(Refused(4, 11)),
    ),
    TestRow("entry 0 of number 171", 6, 171, 0, 0, Some(Refused(4, 11))),
    TestRow("entry 1 of number 171", 6, 171, 0, 1, None),
    TestRow("entry 100 of number 171", 6, 171, 0, 100, None),
    TestRow(
        "entry 101 of number 171",
        6,
        171,
        0,
        101,
        Some(Refused(4, 11)),
    ),
];

/// Checks a test behind the fields of a statement, `more` bytes behind the place of its row. `context` goes
/// behind the label in the message.
pub fn check_test(
    rt: &(impl Abort + AllocGlobal),
    row: &TestRow,
    context: &str,
    front: &str,
    join: u8,
    more: usize,
) -> Result<(), Fail> {
    let [which_high, which_low] = row.2.to_be_bytes();
    let [entry_high, entry_low] = row.4.to_be_bytes();
    let body = [
        join, row.1, which_high, which_low, row.3, entry_high, entry_low,
    ];
    let document = document_with(rt, front, 0x12, &body)?;
    let label = row.0;
    check_row(
        rt,
        &format_args!("{label}, {context}"),
        &document,
        row.5.map(|refused| refused.behind(more)),
    );
    Ok(())
}

#[test]
fn values_of_tests(rt: HostRuntime) -> Result<(), Fail> {
    for row in TESTS.iter() {
        check_test(&rt, row, "in a first test", "n", 0, 0)?;
        check_test(&rt, row, "in a second test", "n i", 2, 10)?;
    }
    Ok(())
}
