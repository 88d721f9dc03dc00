// Whole documents: the worked example and what is made of it, the fields of a document itself, and which of two faults
// is told.
use crate::rows::{Refused, Row, check_behind};
use std::test::Fail;

// The worked example, and documents made of it. Its fields begin at 0, 4, 7, 11, 15 and 25, and it ends at 32.
static EXAMPLES: &[Row] = &[
    Row(
        "the example",
        "01 00 01 01 02 00 19 10 00 01 07 11 00 01 45 12 00 07 00 04 01 02 01 00 00 13 00 04 02 00 A0 01",
        None,
    ),
    Row(
        "the example without its last byte",
        "v 02 0019 n m 12 0007 00 04 0102 01 0000 13 0004 02 00A0",
        Some(Refused(1, 4)),
    ),
    Row(
        "one byte after the example",
        "v 02 0019 n m 12 0007 00 04 0102 01 0000 13 0004 02 00A0 01 02",
        Some(Refused(1, 32)),
    ),
    Row("nothing at all", "", Some(Refused(2, 0))),
    Row(
        "an action's tag for the test's",
        "v 02 0019 n m 13 0007 00 04 0102 01 0000 13 0004 02 00A0 01",
        Some(Refused(2, 15)),
    ),
    Row("only a name", "v 02 0004 n", Some(Refused(2, 4))),
    Row(
        "13 tests",
        "v 02 0091 n m ijjj jjjj jjjj j 13 0004 02 00A0 01",
        Some(Refused(3, 135)),
    ),
    Row(
        "mark X",
        "v 02 0019 n 11 0001 58 12 0007 00 04 0102 01 0000 13 0004 02 00A0 01",
        Some(Refused(4, 11)),
    ),
    Row(
        "version 2",
        "01 0001 02 02 0019 n m 12 0007 00 04 0102 01 0000 13 0004 02 00A0 01",
        Some(Refused(4, 0)),
    ),
    Row(
        "the statement twice",
        "v 02 0019 n m i 13 0004 02 00A0 01 02 0019 n m i 13 0004 02 00A0 01",
        Some(Refused(5, 35)),
    ),
    Row(
        "a plan of statement 8",
        "v 02 0019 n m i 13 0004 02 00A0 01 03 0002 01 08",
        Some(Refused(5, 32)),
    ),
    Row(
        "a plan of statement 7",
        "v 02 0019 n m i 13 0004 02 00A0 01 03 0002 01 07",
        None,
    ),
    Row(
        "DELAYs of 2000 and 48 tenths",
        "v 02 0027 n m i 13 0004 02 00A0 01 13 0004 07 07D0 00 13 0004 07 0030 00",
        Some(Refused(6, 39)),
    ),
    Row(
        "DELAYs of 2000 and 47 tenths",
        "v 02 0027 n m i 13 0004 02 00A0 01 13 0004 07 07D0 00 13 0004 07 002F 00",
        None,
    ),
];

// Fields of the document that are cut. The version ends at 4, a statement behind it at 21, a plan behind both at 25.
static CUT_FIELDS: &[Row] = &[
    Row("one byte of a version", "01", Some(Refused(1, 0))),
    Row("two bytes of a version", "01 00", Some(Refused(1, 0))),
    Row("a version without its body", "01 0001", Some(Refused(1, 0))),
    Row(
        "a version of two bytes with one there",
        "01 0002 01",
        Some(Refused(1, 0)),
    ),
    Row("one byte of an unknown field", "FF", Some(Refused(1, 0))),
    Row(
        "two bytes of an unknown field",
        "00 00",
        Some(Refused(1, 0)),
    ),
    Row(
        "an unknown first field past the end",
        "07 0002 00",
        Some(Refused(1, 0)),
    ),
    Row("one byte behind the version", "v 02", Some(Refused(1, 4))),
    Row(
        "two bytes behind the version",
        "v 02 00",
        Some(Refused(1, 4)),
    ),
    Row(
        "a statement without its body",
        "v 02 0001",
        Some(Refused(1, 4)),
    ),
    Row(
        "a statement one byte past the end",
        "v 02 000F n i",
        Some(Refused(1, 4)),
    ),
    Row(
        "a statement far past the end",
        "v 02 FFFF n i",
        Some(Refused(1, 4)),
    ),
    Row(
        "a length with its low byte first",
        "v 02 0E00 n i",
        Some(Refused(1, 4)),
    ),
    Row(
        "a statement of 256 bytes with 255 there",
        "v 02 0100 sssss sssss sssss",
        Some(Refused(1, 4)),
    ),
    Row(
        "a statement of 256 bytes, its first field a statement",
        "v 02 0100 sssss sssss sssss 00",
        Some(Refused(2, 7)),
    ),
    Row(
        "a statement past the end with a fault inside",
        "v 02 000F 10 0001 00 i",
        Some(Refused(1, 4)),
    ),
    Row("a plan without its body", "v 03 0001", Some(Refused(1, 4))),
    Row(
        "a second version past the end",
        "v 01 0001",
        Some(Refused(1, 4)),
    ),
    Row(
        "an unknown field past the end",
        "v FF 0001",
        Some(Refused(1, 4)),
    ),
    Row(
        "one byte behind a statement",
        "v s 02",
        Some(Refused(1, 21)),
    ),
    Row(
        "two bytes behind a statement",
        "v s 03 00",
        Some(Refused(1, 21)),
    ),
    Row(
        "a second statement one byte past the end",
        "v s 02 000F n i",
        Some(Refused(1, 21)),
    ),
    Row(
        "a plan one byte past the end",
        "v s 03 0002 01",
        Some(Refused(1, 21)),
    ),
    Row(
        "a plan of 102 bytes with one there",
        "v s 03 0066 01",
        Some(Refused(1, 21)),
    ),
    Row("one byte behind a plan", "v s p 03", Some(Refused(1, 25))),
    Row(
        "two bytes behind a plan",
        "v s p 00 00",
        Some(Refused(1, 25)),
    ),
    Row(
        "a statement past the end behind a plan",
        "v s p 02 000F n i",
        Some(Refused(1, 25)),
    ),
];

// Fields that are not due, and versions.
static FIELDS_NOT_DUE: &[Row] = &[
    Row("a version alone", "v", None),
    Row("a version and a statement", "v s", None),
    Row("a version and a plan", "v p", None),
    Row("a version, a statement and a plan", "v s p", None),
    Row(
        "a version, two statements and a plan",
        "v s 02 000E n i p",
        None,
    ),
    Row("a statement first", "s", Some(Refused(2, 0))),
    Row(
        "a statement in front of the version",
        "s v",
        Some(Refused(2, 0)),
    ),
    Row("a plan first", "p", Some(Refused(2, 0))),
    Row("a name first", "n", Some(Refused(2, 0))),
    Row("tag 0 first", "00 0000", Some(Refused(2, 0))),
    Row("tag 4 first", "04 0001 01", Some(Refused(2, 0))),
    Row("a version of no bytes", "01 0000", Some(Refused(2, 0))),
    Row(
        "a version of no bytes with one behind it",
        "01 0000 01",
        Some(Refused(2, 0)),
    ),
    Row(
        "a version of two bytes",
        "01 0002 01 01",
        Some(Refused(2, 0)),
    ),
    Row(
        "a version of two bytes that are not 1",
        "01 0002 02 02",
        Some(Refused(2, 0)),
    ),
    Row("a second version", "v v", Some(Refused(2, 4))),
    Row(
        "a second version that is 2",
        "v 01 0001 02",
        Some(Refused(2, 4)),
    ),
    Row(
        "a version behind a statement",
        "v s v",
        Some(Refused(2, 21)),
    ),
    Row("a version behind a plan", "v p v", Some(Refused(2, 8))),
    Row("tag 0", "v 00 0000", Some(Refused(2, 4))),
    Row("tag 4", "v 04 0000", Some(Refused(2, 4))),
    Row("tag 15", "v 0F 0000", Some(Refused(2, 4))),
    Row("tag 255", "v FF 0003 01 02 03", Some(Refused(2, 4))),
    Row("a name outside a statement", "v n", Some(Refused(2, 4))),
    Row("a mark outside a statement", "v m", Some(Refused(2, 4))),
    Row("a test outside a statement", "v s j", Some(Refused(2, 21))),
    Row(
        "a THEN action outside a statement",
        "v s t",
        Some(Refused(2, 21)),
    ),
    Row(
        "an ELSE action outside a statement",
        "v s e",
        Some(Refused(2, 21)),
    ),
    Row(
        "tag 4 behind a statement",
        "v s 04 0000",
        Some(Refused(2, 21)),
    ),
    Row("tag 5 behind a plan", "v p 05 0000", Some(Refused(2, 8))),
    Row("a statement behind a plan", "v p s", Some(Refused(2, 8))),
    Row(
        "a statement between plans",
        "v s p s 03 0001 02",
        Some(Refused(2, 25)),
    ),
    Row(
        "an empty statement behind a plan",
        "v p 02 0000",
        Some(Refused(2, 8)),
    ),
    Row(
        "a statement behind a plan with a name of 0",
        "v p 02 000E 10 0001 00 i",
        Some(Refused(2, 8)),
    ),
    Row(
        "a statement inside a statement",
        "v 02 001F n i s",
        Some(Refused(2, 21)),
    ),
    Row(
        "a plan inside a statement",
        "v 02 0012 n i p",
        Some(Refused(2, 21)),
    ),
    Row("version 0", "01 0001 00", Some(Refused(4, 0))),
    Row("version 2", "01 0001 02", Some(Refused(4, 0))),
    Row("version 255", "01 0001 FF", Some(Refused(4, 0))),
];

// Statements that are judged apart, names that repeat, and documents with two faults, of which the first decides.
static FIRST_FAULTS: &[Row] = &[
    Row(
        "a DELAY of 2047 tenths in each of two statements",
        "v 02 0015 n i 13 0004 07 07FF 00 02 0015 10 0001 08 i 13 0004 07 07FF 00",
        None,
    ),
    Row("a name repeated", "v s s", Some(Refused(5, 24))),
    Row(
        "a name repeated in the third statement",
        "v s 02 000E n i s",
        Some(Refused(5, 41)),
    ),
    Row(
        "the second name repeated in the third statement",
        "v s 02 000E n i 02 000E n i",
        Some(Refused(5, 41)),
    ),
    Row(
        "a name repeated below a mark",
        "v 02 0012 n m i 02 000E n i",
        Some(Refused(5, 28)),
    ),
    Row(
        "a name repeated with two bytes",
        "v s 02 000F 10 0002 32 32 i",
        Some(Refused(2, 24)),
    ),
    Row(
        "a name repeated in a second name",
        "v s 02 0012 n 10 0001 32 i",
        Some(Refused(2, 28)),
    ),
    Row(
        "a name repeated in front of a faulty mark",
        "v s 02 0012 10 0001 32 11 0001 58 i",
        Some(Refused(5, 24)),
    ),
    Row(
        "a name repeated and no test",
        "v s 02 0004 10 0001 32",
        Some(Refused(5, 24)),
    ),
    Row(
        "a name repeated in front of a faulty plan",
        "v s s 03 0001 00",
        Some(Refused(5, 24)),
    ),
    Row(
        "version 2 and a cut field",
        "01 0001 02 02",
        Some(Refused(4, 0)),
    ),
    Row(
        "version 2 and a second version",
        "01 0001 02 v",
        Some(Refused(4, 0)),
    ),
    Row(
        "an unknown field and a cut one",
        "v 09 0000 02",
        Some(Refused(2, 4)),
    ),
    Row(
        "mark X and a cut field behind its statement",
        "v 02 0008 n 11 0001 58 02",
        Some(Refused(4, 11)),
    ),
    Row(
        "no test and a fault in the next statement",
        "v 02 0004 n 02 000E 10 0001 00 i",
        Some(Refused(2, 4)),
    ),
    Row(
        "a faulty value and no test in the next statement",
        "v 02 000E 10 0001 00 i 02 0000",
        Some(Refused(4, 7)),
    ),
    Row(
        "a sum of DELAYs and a second version",
        "v 02 001C n i 13 0004 07 07FF 00 13 0004 07 0001 00 v",
        Some(Refused(6, 28)),
    ),
    Row(
        "plans that fall and a statement behind them",
        "v 03 0001 02 p s",
        Some(Refused(5, 8)),
    ),
    Row(
        "a plan of number 0 and a cut field",
        "v 03 0001 00 03",
        Some(Refused(4, 4)),
    ),
    Row(
        "a plan of no bytes and a plan of number 0",
        "v 03 0000 03 0001 00",
        Some(Refused(2, 4)),
    ),
];

#[test]
fn whole_documents(rt: HostRuntime) -> Result<(), Fail> {
    check_behind(&rt, &[], EXAMPLES)?;
    check_behind(&rt, &[], CUT_FIELDS)?;
    check_behind(&rt, &[], FIELDS_NOT_DUE)?;
    check_behind(&rt, &[], FIRST_FAULTS)
}
