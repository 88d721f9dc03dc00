// The largest documents: as many statements and plans as there may be, with as many lines and names as each may have.
use crate::fields::put_field;
use crate::rows::{Refused, Row, bytes_of, check_behind, check_row, put_text};
use std::process::Abort;
use std::test::Fail;

// What is put behind 100 statements of one test, 17 bytes each: they end at 1704.
static BEHIND_STATEMENTS: &[Row] = &[
    Row("100 statements", "", None),
    Row(
        "a statement more, named 1",
        "02 000E 10 0001 01 i",
        Some(Refused(5, 1707)),
    ),
    Row(
        "a statement more, named 100",
        "02 000E 10 0001 64 i",
        Some(Refused(5, 1707)),
    ),
    Row(
        "a statement more, named 101",
        "02 000E 10 0001 65 i",
        Some(Refused(4, 1707)),
    ),
    Row(
        "a statement more, named 0",
        "02 000E 10 0001 00 i",
        Some(Refused(4, 1707)),
    ),
    Row("an empty statement more", "02 0000", Some(Refused(2, 1704))),
    Row(
        "a statement more that is cut",
        "02 000E n",
        Some(Refused(1, 1704)),
    ),
    Row("100 statements and a plan", "03 0002 64 64", None),
];

// What is put behind the longest document, which ends at 34704.
static BEHIND_THE_LONGEST: &[Row] = &[
    Row("the longest document", "", None),
    Row("one byte more", "03", Some(Refused(1, 34704))),
    Row("one byte 0 more", "00", Some(Refused(1, 34704))),
    Row("two bytes more", "03 00", Some(Refused(1, 34704))),
    Row(
        "a plan more, of number 100",
        "03 0001 64",
        Some(Refused(5, 34704)),
    ),
    Row(
        "a plan more, of number 101",
        "03 0001 65",
        Some(Refused(4, 34704)),
    ),
    Row("a statement more", "s", Some(Refused(2, 34704))),
];

// What is put behind the longest document without its last byte, the last name of its last plan, which begins at 34600.
static BEHIND_THE_LAST_BUT_ONE: &[Row] = &[
    Row("no last name", "", Some(Refused(1, 34600))),
    Row("last name 99", "63", Some(Refused(5, 34600))),
    Row("last name 100", "64", None),
    Row("last name 101", "65", Some(Refused(4, 34600))),
];

/// A label, a plan's number and the last of its names, which are 1 and on, and the refusal, or none.
struct PlanRow(&'static str, u8, u8, Option<Refused>);

// Plans behind the same 100 statements.
static PLANS: &[PlanRow] = &[
    PlanRow("a plan of 100 names", 1, 100, None),
    PlanRow("a plan of 101 names", 1, 101, Some(Refused(2, 1704))),
    PlanRow(
        "a plan of 101 names and number 0",
        0,
        101,
        Some(Refused(2, 1704)),
    ),
    PlanRow("a plan of 255 names", 100, 255, Some(Refused(2, 1704))),
];

// A document of statements 1 to 100, each of these fields behind its name.
fn hundred_statements(rt: &(impl Abort + AllocGlobal), fields: &str) -> Result<Vec<u8>, Fail> {
    let mut document = bytes_of(rt, "v")?;
    for name in 1..101u8 {
        let mut body = Vec::from_slice(rt.alloc(), &[0x10, 0, 1, name])?;
        put_text(rt, &mut body, fields)?;
        put_field(&mut document, 0x02, &body)?;
    }
    Ok(document)
}

// Appends a plan of the names 1 to `last`.
fn put_plan(
    rt: &(impl Abort + AllocGlobal),
    document: &mut Vec<u8>,
    number: u8,
    last: u8,
) -> Result<(), Fail> {
    let mut body = Vec::from_slice(rt.alloc(), &[number])?;
    for name in 0..last {
        body.push(name.saturating_add(1))?;
    }
    put_field(document, 0x03, &body)?;
    Ok(())
}

fn check_plans(rt: &(impl Abort + AllocGlobal), front: &[u8]) -> Result<(), Fail> {
    for row in PLANS.iter() {
        let mut document = Vec::from_slice(rt.alloc(), front)?;
        put_plan(rt, &mut document, row.1, row.2)?;
        check_row(rt, &row.0, &document, row.3);
    }
    Ok(())
}

// The longest document that loads: every mark written, and every line and name that there may be.
fn longest_document(rt: &(impl Abort + AllocGlobal)) -> Result<Vec<u8>, Fail> {
    let mut document = hundred_statements(rt, "11 0001 44 ijjj jjjj jjjj tttt tttt eeee eeee")?;
    for number in 1..101u8 {
        put_plan(rt, &mut document, number, 100)?;
    }
    Ok(document)
}

#[test]
fn largest_documents(rt: HostRuntime) -> Result<(), Fail> {
    let statements = hundred_statements(&rt, "i")?;
    assert_eq!(rt; statements.len(), 1704);
    check_behind(&rt, &statements, BEHIND_STATEMENTS)?;
    check_plans(&rt, &statements)?;
    let mut longest = longest_document(&rt)?;
    assert_eq!(rt; longest.len(), 34704);
    check_behind(&rt, &longest, BEHIND_THE_LONGEST)?;
    longest.truncate(34703);
    check_behind(&rt, &longest, BEHIND_THE_LAST_BUT_ONE)
}
