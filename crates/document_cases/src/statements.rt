// The fields of a statement, which begin at 7 where it is the first of its document.
use crate::fields::document_of;
use crate::rows::{Refused, Row, bytes_of, check_row};
use std::process::Abort;
use std::test::Fail;

// Fields that are cut. Behind the name is 11, behind a test there 21, behind an action there 28.
static CUT_FIELDS: &[Row] = &[
    Row("one byte of a name", "10", Some(Refused(1, 7))),
    Row("two bytes of a name", "10 00", Some(Refused(1, 7))),
    Row("a name without its body", "10 0001", Some(Refused(1, 7))),
    Row(
        "a name of two bytes with one there",
        "10 0002 07",
        Some(Refused(1, 7)),
    ),
    Row(
        "a name's length with its low byte first",
        "10 0100 07 i",
        Some(Refused(1, 7)),
    ),
    Row(
        "one byte of an unknown first field",
        "00",
        Some(Refused(1, 7)),
    ),
    Row(
        "an unknown first field past the end",
        "FF 0001",
        Some(Refused(1, 7)),
    ),
    Row("one byte behind the name", "n 12", Some(Refused(1, 11))),
    Row("two bytes behind the name", "n 12 00", Some(Refused(1, 11))),
    Row("a mark without its body", "n 11 0001", Some(Refused(1, 11))),
    Row(
        "a second name past the end",
        "n 10 0001",
        Some(Refused(1, 11)),
    ),
    Row(
        "a test one byte short",
        "n 12 0007 00 03 0001 00 00",
        Some(Refused(1, 11)),
    ),
    Row(
        "an action one byte short in front of any test",
        "n 13 0004 03 0001",
        Some(Refused(1, 11)),
    ),
    Row("one byte behind the mark", "n m 12", Some(Refused(1, 15))),
    Row(
        "a test one byte short behind the mark",
        "n m 12 0007 00 03 0001 00 00",
        Some(Refused(1, 15)),
    ),
    Row("one byte behind a test", "n i 13", Some(Refused(1, 21))),
    Row("two bytes behind a test", "n i 12 00", Some(Refused(1, 21))),
    Row(
        "a second test one byte short",
        "n i 12 0007 01 03 0001 00 00",
        Some(Refused(1, 21)),
    ),
    Row(
        "a THEN action one byte short",
        "n i 13 0004 03 0001",
        Some(Refused(1, 21)),
    ),
    Row(
        "an ELSE action one byte short",
        "n i 14 0004 03 0001",
        Some(Refused(1, 21)),
    ),
    Row(
        "a THEN action far past the end",
        "n i 13 FFFF 03 0001 01",
        Some(Refused(1, 21)),
    ),
    Row(
        "an unknown field past the end",
        "n i FF 0001",
        Some(Refused(1, 21)),
    ),
    Row(
        "one byte behind a THEN action",
        "n i t 14",
        Some(Refused(1, 28)),
    ),
    Row(
        "a THEN action past the end behind an ELSE action",
        "n i e 13 0004 03 0001",
        Some(Refused(1, 28)),
    ),
    Row(
        "two bytes behind an ELSE action",
        "n i t e 14 00",
        Some(Refused(1, 35)),
    ),
];

// Fields in an order that is allowed, and fields that are not due or missing.
static ORDERS: &[Row] = &[
    Row("a name and a test", "n i", None),
    Row("a name, a mark and a test", "n m i", None),
    Row("a THEN action", "n i t", None),
    Row("an ELSE action", "n i e", None),
    Row("two tests and both branches", "n m i j t t e e", None),
    Row("an empty statement", "", Some(Refused(2, 4))),
    Row("a name alone", "n", Some(Refused(2, 4))),
    Row("a name and a mark alone", "n m", Some(Refused(2, 4))),
    Row("a test first", "i", Some(Refused(2, 7))),
    Row("a test in front of the name", "i n", Some(Refused(2, 7))),
    Row("a mark first", "m n i", Some(Refused(2, 7))),
    Row("a THEN action first", "t n i", Some(Refused(2, 7))),
    Row("an ELSE action first", "e n i", Some(Refused(2, 7))),
    Row("a version first", "v n i", Some(Refused(2, 7))),
    Row("a statement first", "s", Some(Refused(2, 7))),
    Row("a plan first", "p n i", Some(Refused(2, 7))),
    Row("tag 0 first", "00 0000 n i", Some(Refused(2, 7))),
    Row("tag 15 first", "0F 0001 07 i", Some(Refused(2, 7))),
    Row("tag 21 first", "15 0000 n i", Some(Refused(2, 7))),
    Row("a second name", "n n i", Some(Refused(2, 11))),
    Row("a name behind the mark", "n m n i", Some(Refused(2, 15))),
    Row("a name behind a test", "n i n", Some(Refused(2, 21))),
    Row(
        "a name behind a THEN action",
        "n i t n",
        Some(Refused(2, 28)),
    ),
    Row(
        "a name behind an ELSE action",
        "n i e n",
        Some(Refused(2, 28)),
    ),
    Row("a second mark", "n m m i", Some(Refused(2, 15))),
    Row(
        "a second mark that is X",
        "n m 11 0001 58 i",
        Some(Refused(2, 15)),
    ),
    Row("a mark behind a test", "n i m", Some(Refused(2, 21))),
    Row(
        "a mark behind a second test",
        "n i j m",
        Some(Refused(2, 31)),
    ),
    Row(
        "a mark behind a THEN action",
        "n i t m",
        Some(Refused(2, 28)),
    ),
    Row(
        "a mark behind an ELSE action",
        "n i e m",
        Some(Refused(2, 28)),
    ),
    Row("a THEN action and no test", "n t", Some(Refused(2, 11))),
    Row(
        "a THEN action in front of the tests",
        "n t i",
        Some(Refused(2, 11)),
    ),
    Row(
        "an ELSE action in front of the tests",
        "n e i",
        Some(Refused(2, 11)),
    ),
    Row(
        "an action between the mark and the tests",
        "n m t i",
        Some(Refused(2, 15)),
    ),
    Row(
        "a test behind a THEN action",
        "n i t j",
        Some(Refused(2, 28)),
    ),
    Row(
        "a test behind an ELSE action",
        "n i e j",
        Some(Refused(2, 28)),
    ),
    Row(
        "a THEN action behind an ELSE action",
        "n i e t",
        Some(Refused(2, 28)),
    ),
    Row(
        "a THEN action behind both branches",
        "n i t e t",
        Some(Refused(2, 35)),
    ),
    Row(
        "tag 15 behind the name",
        "n 0F 0000 i",
        Some(Refused(2, 11)),
    ),
    Row(
        "tag 21 behind the name",
        "n 15 0000 i",
        Some(Refused(2, 11)),
    ),
    Row("a version behind the name", "n v i", Some(Refused(2, 11))),
    Row(
        "tag 21 behind a test",
        "n i 15 0004 03 0001 01",
        Some(Refused(2, 21)),
    ),
    Row("a plan behind a test", "n i p", Some(Refused(2, 21))),
    Row(
        "tag 255 behind a THEN action",
        "n i t FF 0000",
        Some(Refused(2, 28)),
    ),
    Row(
        "tag 0 behind an ELSE action",
        "n i t e 00 0000",
        Some(Refused(2, 35)),
    ),
];

// Bodies of the wrong length.
static LENGTHS: &[Row] = &[
    Row("a name of no bytes", "10 0000 i", Some(Refused(2, 7))),
    Row(
        "a name of two bytes",
        "10 0002 07 08 i",
        Some(Refused(2, 7)),
    ),
    Row(
        "a name of two bytes that are 0",
        "10 0002 00 00 i",
        Some(Refused(2, 7)),
    ),
    Row("a mark of no bytes", "n 11 0000 i", Some(Refused(2, 11))),
    Row(
        "a mark of two bytes",
        "n 11 0002 45 45 i",
        Some(Refused(2, 11)),
    ),
    Row(
        "a mark of two bytes that are X",
        "n 11 0002 58 58 i",
        Some(Refused(2, 11)),
    ),
    Row("a test of no bytes", "n 12 0000", Some(Refused(2, 11))),
    Row(
        "a test of six bytes",
        "n 12 0006 00 03 0001 00 00",
        Some(Refused(2, 11)),
    ),
    Row(
        "a test of eight bytes",
        "n 12 0008 00 03 0001 00 0000 00",
        Some(Refused(2, 11)),
    ),
    Row(
        "a test of six bytes with join 3",
        "n 12 0006 03 03 0001 00 00",
        Some(Refused(2, 11)),
    ),
    Row(
        "a second test of six bytes",
        "n i 12 0006 01 03 0001 00 00",
        Some(Refused(2, 21)),
    ),
    Row(
        "a second test of eight bytes",
        "n i 12 0008 01 03 0001 00 0000 00",
        Some(Refused(2, 21)),
    ),
    Row(
        "a THEN action of no bytes",
        "n i 13 0000",
        Some(Refused(2, 21)),
    ),
    Row(
        "a THEN action of three bytes",
        "n i 13 0003 03 0001",
        Some(Refused(2, 21)),
    ),
    Row(
        "a THEN action of five bytes",
        "n i 13 0005 03 0001 01 00",
        Some(Refused(2, 21)),
    ),
    Row(
        "a THEN action of three bytes that are 0",
        "n i 13 0003 00 0000",
        Some(Refused(2, 21)),
    ),
    Row(
        "an ELSE action of no bytes",
        "n i 14 0000",
        Some(Refused(2, 21)),
    ),
    Row(
        "an ELSE action of three bytes",
        "n i 14 0003 03 0001",
        Some(Refused(2, 21)),
    ),
    Row(
        "an ELSE action of five bytes",
        "n i 14 0005 03 0001 01 00",
        Some(Refused(2, 21)),
    ),
    Row(
        "a second ELSE action of five bytes",
        "n i t e 14 0005 03 0001 01 00",
        Some(Refused(2, 35)),
    ),
];

// As many lines as there may be, and one more. Tests begin at 11 and take 10 bytes, actions behind the only test at 21
// and take 7.
static QUANTITIES: &[Row] = &[
    Row("12 tests", "n ijjj jjjj jjjj", None),
    Row("13 tests", "n ijjj jjjj jjjj j", Some(Refused(3, 131))),
    Row("14 tests", "n ijjj jjjj jjjj jj", Some(Refused(3, 131))),
    Row("12 tests below a mark", "n m ijjj jjjj jjjj", None),
    Row(
        "13 tests below a mark",
        "n m ijjj jjjj jjjj j",
        Some(Refused(3, 135)),
    ),
    Row("8 THEN actions", "n i tttt tttt", None),
    Row("9 THEN actions", "n i tttt tttt t", Some(Refused(3, 77))),
    Row("8 ELSE actions", "n i eeee eeee", None),
    Row("9 ELSE actions", "n i eeee eeee e", Some(Refused(3, 77))),
    Row("8 actions in each branch", "n i tttt tttt eeee eeee", None),
    Row(
        "9 THEN actions and 8 ELSE actions",
        "n i tttt tttt t eeee eeee",
        Some(Refused(3, 77)),
    ),
    Row(
        "8 THEN actions and 9 ELSE actions",
        "n i tttt tttt eeee eeee e",
        Some(Refused(3, 133)),
    ),
    Row(
        "as many lines as there may be",
        "n m ijjj jjjj jjjj tttt tttt eeee eeee",
        None,
    ),
    Row(
        "12 tests and 9 THEN actions",
        "n ijjj jjjj jjjj tttt tttt t",
        Some(Refused(3, 187)),
    ),
    Row(
        "12 tests, 8 THEN actions and 9 ELSE actions",
        "n ijjj jjjj jjjj tttt tttt eeee eeee e",
        Some(Refused(3, 243)),
    ),
    Row(
        "a 13th test that is cut",
        "n ijjj jjjj jjjj 12 0007 01",
        Some(Refused(1, 131)),
    ),
    Row(
        "a 13th test of six bytes",
        "n ijjj jjjj jjjj 12 0006 01 03 0001 00 00",
        Some(Refused(2, 131)),
    ),
    Row(
        "a 13th test with join 0",
        "n ijjj jjjj jjjj i",
        Some(Refused(3, 131)),
    ),
    Row(
        "a 13th test of kind 9",
        "n ijjj jjjj jjjj 12 0007 01 09 0001 00 0000",
        Some(Refused(3, 131)),
    ),
    Row(
        "a 13th test behind an action",
        "n ijjj jjjj jjjj t j",
        Some(Refused(2, 138)),
    ),
    Row(
        "a 12th test with join 0",
        "n ijjj jjjj jjj i",
        Some(Refused(4, 121)),
    ),
    Row(
        "a 9th THEN action that is cut",
        "n i tttt tttt 13 00",
        Some(Refused(1, 77)),
    ),
    Row(
        "a 9th THEN action of five bytes",
        "n i tttt tttt 13 0005 03 0001 01 00",
        Some(Refused(2, 77)),
    ),
    Row(
        "a 9th THEN action with state 2",
        "n i tttt tttt 13 0004 03 0001 02",
        Some(Refused(3, 77)),
    ),
    Row(
        "a 9th THEN action behind an ELSE action",
        "n i tttt tttt e t",
        Some(Refused(2, 84)),
    ),
    Row(
        "an 8th THEN action of flag 0",
        "n i tttt ttt 13 0004 03 0000 01",
        Some(Refused(4, 70)),
    ),
    Row(
        "a 9th ELSE action of three bytes",
        "n i eeee eeee 14 0003 03 0001",
        Some(Refused(2, 77)),
    ),
    Row(
        "a 9th ELSE action with state 2",
        "n i eeee eeee 14 0004 03 0001 02",
        Some(Refused(3, 77)),
    ),
    Row(
        "an 8th ELSE action of flag 0",
        "n i eeee eee 14 0004 03 0000 01",
        Some(Refused(4, 70)),
    ),
];

// Names, marks and joins.
static VALUES: &[Row] = &[
    Row("name 0", "10 0001 00 i", Some(Refused(4, 7))),
    Row("name 1", "10 0001 01 i", None),
    Row("name 100", "10 0001 64 i", None),
    Row("name 101", "10 0001 65 i", Some(Refused(4, 7))),
    Row("name 255", "10 0001 FF i", Some(Refused(4, 7))),
    Row("mark E", "n 11 0001 45 i", None),
    Row("mark D", "n 11 0001 44 i", None),
    Row("mark full stop", "n 11 0001 2E i", None),
    Row("mark X", "n 11 0001 58 i", Some(Refused(4, 11))),
    Row("mark 0", "n 11 0001 00 i", Some(Refused(4, 11))),
    Row("mark F", "n 11 0001 46 i", Some(Refused(4, 11))),
    Row("mark C", "n 11 0001 43 i", Some(Refused(4, 11))),
    Row("mark minus", "n 11 0001 2D i", Some(Refused(4, 11))),
    Row("mark slash", "n 11 0001 2F i", Some(Refused(4, 11))),
    Row("mark small e", "n 11 0001 65 i", Some(Refused(4, 11))),
    Row("mark small d", "n 11 0001 64 i", Some(Refused(4, 11))),
    Row("mark of byte AE", "n 11 0001 AE i", Some(Refused(4, 11))),
    Row(
        "join 1 in the first test",
        "n 12 0007 01 03 0001 00 0000",
        Some(Refused(4, 11)),
    ),
    Row(
        "join 2 in the first test",
        "n 12 0007 02 03 0001 00 0000",
        Some(Refused(4, 11)),
    ),
    Row(
        "join 3 in the first test",
        "n 12 0007 03 03 0001 00 0000",
        Some(Refused(4, 11)),
    ),
    Row("join 0 in the second test", "n i i", Some(Refused(4, 21))),
    Row(
        "join 1 in the second test",
        "n i 12 0007 01 03 0001 00 0000",
        None,
    ),
    Row(
        "join 2 in the second test",
        "n i 12 0007 02 03 0001 00 0000",
        None,
    ),
    Row(
        "join 3 in the second test",
        "n i 12 0007 03 03 0001 00 0000",
        Some(Refused(4, 21)),
    ),
    Row(
        "join 255 in the second test",
        "n i 12 0007 FF 03 0001 00 0000",
        Some(Refused(4, 21)),
    ),
    Row("join 0 in the third test", "n i j i", Some(Refused(4, 31))),
    Row(
        "join 0 in the second test below a mark",
        "n m i i",
        Some(Refused(4, 25)),
    ),
    Row("name 0 and no test", "10 0001 00", Some(Refused(4, 7))),
    Row("mark X and no test", "n 11 0001 58", Some(Refused(4, 11))),
    Row(
        "mark X and a cut field",
        "n 11 0001 58 12",
        Some(Refused(4, 11)),
    ),
    Row(
        "mark X and a second mark",
        "n 11 0001 58 m i",
        Some(Refused(4, 11)),
    ),
    Row(
        "a faulty test and a second name",
        "n 12 0007 00 03 0000 00 0000 n",
        Some(Refused(4, 11)),
    ),
    Row(
        "a faulty action and a test behind it",
        "n i 13 0004 03 0000 01 j",
        Some(Refused(4, 21)),
    ),
];

// DELAYs whose sum is 2047 tenths at most, and more.
static DELAYS: &[Row] = &[
    Row(
        "THEN 2000 and 47",
        "n i 13 0004 07 07D0 00 13 0004 07 002F 00",
        None,
    ),
    Row(
        "THEN 2000 and 48",
        "n i 13 0004 07 07D0 00 13 0004 07 0030 00",
        Some(Refused(6, 28)),
    ),
    Row(
        "ELSE 2000 and 47",
        "n i 14 0004 07 07D0 00 14 0004 07 002F 00",
        None,
    ),
    Row(
        "ELSE 2000 and 48",
        "n i 14 0004 07 07D0 00 14 0004 07 0030 00",
        Some(Refused(6, 28)),
    ),
    Row(
        "2047 and 0",
        "n i 13 0004 07 07FF 00 13 0004 07 0000 00",
        None,
    ),
    Row(
        "2047 and 1",
        "n i 13 0004 07 07FF 00 13 0004 07 0001 00",
        Some(Refused(6, 28)),
    ),
    Row(
        "1 and 2047",
        "n i 13 0004 07 0001 00 13 0004 07 07FF 00",
        Some(Refused(6, 28)),
    ),
    Row(
        "2047 and 2047",
        "n i 14 0004 07 07FF 00 14 0004 07 07FF 00",
        Some(Refused(6, 28)),
    ),
    Row(
        "2047 in each branch",
        "n i 13 0004 07 07FF 00 14 0004 07 07FF 00",
        None,
    ),
    Row(
        "THEN 2000 and ELSE 48",
        "n i 13 0004 07 07D0 00 14 0004 07 0030 00",
        None,
    ),
    Row(
        "2000 and 47 in each branch",
        "n i 13 0004 07 07D0 00 13 0004 07 002F 00 14 0004 07 07D0 00 14 0004 07 002F 00",
        None,
    ),
    Row(
        "2000 and 47 in THEN, 2000 and 48 in ELSE",
        "n i 13 0004 07 07D0 00 13 0004 07 002F 00 14 0004 07 07D0 00 14 0004 07 0030 00",
        Some(Refused(6, 42)),
    ),
    Row(
        "2000 and 48 with an action between them",
        "n i 13 0004 07 07D0 00 t 13 0004 07 0030 00",
        Some(Refused(6, 35)),
    ),
    Row(
        "2000 and 47 with an action between them",
        "n i 13 0004 07 07D0 00 t 13 0004 07 002F 00",
        None,
    ),
    Row(
        "1000, 1000 and 48",
        "n i 13 0004 07 03E8 00 13 0004 07 03E8 00 13 0004 07 0030 00",
        Some(Refused(6, 35)),
    ),
    Row(
        "1000, 1000 and 47",
        "n i 13 0004 07 03E8 00 13 0004 07 03E8 00 13 0004 07 002F 00",
        None,
    ),
    Row(
        "256 seven times and 255",
        "n i dddd ddd 13 0004 07 00FF 00",
        None,
    ),
    Row("256 eight times", "n i dddd dddd", Some(Refused(6, 70))),
    Row("256 nine times", "n i dddd dddd d", Some(Refused(6, 70))),
    Row(
        "a 9th action that is an eighth 256",
        "n i dddd ddd t d",
        Some(Refused(3, 77)),
    ),
    Row(
        "2000 and 2048",
        "n i 13 0004 07 07D0 00 13 0004 07 0800 00",
        Some(Refused(4, 28)),
    ),
    Row(
        "2000 and 48 with state 1",
        "n i 13 0004 07 07D0 00 13 0004 07 0030 01",
        Some(Refused(4, 28)),
    ),
    Row(
        "2000 and 48 in five bytes",
        "n i 13 0004 07 07D0 00 13 0005 07 0030 00 00",
        Some(Refused(2, 28)),
    ),
    Row(
        "2000 and 48 in a cut field",
        "n i 13 0004 07 07D0 00 13 0004 07 0030",
        Some(Refused(1, 28)),
    ),
    Row(
        "2000, a faulty action and 48",
        "n i 13 0004 07 07D0 00 13 0004 03 0000 00 13 0004 07 0030 00",
        Some(Refused(4, 28)),
    ),
    Row(
        "codes of cells are not summed",
        "n i 13 0004 02 02FF 01 13 0004 02 02FF 01 13 0004 02 02FF 01",
        None,
    ),
];

// Checks each row's fields as the only statement, and as a statement between another of 17 bytes and a plan.
fn check_statements(rt: &(impl Abort + AllocGlobal), rows: &[Row]) -> Result<(), Fail> {
    for row in rows.iter() {
        let fields = bytes_of(rt, row.1)?;
        let label = row.0;
        check_row(rt, &label, &document_of(rt, "v", &fields, "")?, row.2);
        let second = document_of(rt, "v s", &fields, "p")?;
        check_row(
            rt,
            &format_args!("{label}, in the second statement"),
            &second,
            row.2.map(|refused| refused.behind(17)),
        );
    }
    Ok(())
}

#[test]
fn fields_of_statements(rt: HostRuntime) -> Result<(), Fail> {
    check_statements(&rt, CUT_FIELDS)?;
    check_statements(&rt, ORDERS)?;
    check_statements(&rt, LENGTHS)?;
    check_statements(&rt, QUANTITIES)?;
    check_statements(&rt, VALUES)?;
    check_statements(&rt, DELAYS)
}
