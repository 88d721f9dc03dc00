// Plans behind statements 5, 1, 100 and 2, of 17 bytes each: the first plan stands at 72.
use crate::rows::{Refused, Row, bytes_of, check_behind};
use std::test::Fail;

static PLANS: &[Row] = &[
    Row("no plan", "", None),
    Row("a plan of no names", "p", None),
    Row("a plan of one name", "03 0002 01 01", None),
    Row("a plan of every name", "03 0005 01 01 02 05 64", None),
    Row("a plan of no bytes", "03 0000", Some(Refused(2, 72))),
    Row(
        "a second plan of no bytes",
        "p 03 0000",
        Some(Refused(2, 76)),
    ),
    Row("plan 100", "03 0001 64", None),
    Row("plan 0", "03 0001 00", Some(Refused(4, 72))),
    Row("plan 101", "03 0001 65", Some(Refused(4, 72))),
    Row("plan 255", "03 0001 FF", Some(Refused(4, 72))),
    Row("plan 0 with a name", "03 0002 00 01", Some(Refused(4, 72))),
    Row(
        "plan 101 with a name",
        "03 0002 65 01",
        Some(Refused(4, 72)),
    ),
    Row("name 0", "03 0002 01 00", Some(Refused(4, 72))),
    Row("name 101", "03 0002 01 65", Some(Refused(4, 72))),
    Row("name 255", "03 0002 01 FF", Some(Refused(4, 72))),
    Row(
        "name 101 behind another",
        "03 0003 01 64 65",
        Some(Refused(4, 72)),
    ),
    Row(
        "a name that no statement has",
        "03 0002 01 03",
        Some(Refused(5, 72)),
    ),
    Row(
        "a last name that no statement has",
        "03 0004 01 01 02 63",
        Some(Refused(5, 72)),
    ),
    Row("equal names", "03 0003 01 01 01", Some(Refused(5, 72))),
    Row("falling names", "03 0003 01 02 01", Some(Refused(5, 72))),
    Row(
        "names that rise and fall",
        "03 0005 01 01 05 02 64",
        Some(Refused(5, 72)),
    ),
    Row("plans 1 and 2", "p 03 0001 02", None),
    Row("plans 1 and 100", "p 03 0001 64", None),
    Row("plans of equal numbers", "p p", Some(Refused(5, 76))),
    Row(
        "plans of falling numbers",
        "03 0001 02 p",
        Some(Refused(5, 76)),
    ),
    Row(
        "a third plan below the second",
        "p 03 0001 03 03 0001 02",
        Some(Refused(5, 80)),
    ),
    Row(
        "a third plan below the first",
        "03 0001 02 03 0001 03 p",
        Some(Refused(5, 80)),
    ),
    Row(
        "plans of the same names",
        "03 0002 01 64 03 0002 02 64",
        None,
    ),
    Row(
        "a plan whose first name is below the last of the plan above",
        "03 0002 01 64 03 0002 02 01",
        None,
    ),
    Row(
        "falling names in the second plan",
        "03 0002 01 01 03 0003 02 05 02",
        Some(Refused(5, 77)),
    ),
    Row(
        "a name that no statement has in the second plan",
        "p 03 0002 02 04",
        Some(Refused(5, 76)),
    ),
    Row(
        "falling names, one 0",
        "03 0004 01 02 01 00",
        Some(Refused(4, 72)),
    ),
    Row(
        "a name that no statement has and name 101",
        "03 0003 01 03 65",
        Some(Refused(4, 72)),
    ),
    Row("a second plan 0", "p 03 0001 00", Some(Refused(4, 76))),
    Row("a second plan 101", "p 03 0001 65", Some(Refused(4, 76))),
    Row(
        "plans of equal numbers, the second with name 0",
        "p 03 0002 01 00",
        Some(Refused(4, 76)),
    ),
    Row(
        "plans of equal numbers, the second with name 101",
        "p 03 0002 01 65",
        Some(Refused(4, 76)),
    ),
    Row("a plan that is cut", "03 0002 01", Some(Refused(1, 72))),
    Row("plan 0 that is cut", "03 0002 00", Some(Refused(1, 72))),
    Row(
        "a second plan of an equal number that is cut",
        "p 03 0002 01",
        Some(Refused(1, 76)),
    ),
    Row("one byte behind a plan", "p 03", Some(Refused(1, 76))),
    Row(
        "two bytes behind two plans",
        "p 03 0001 02 03 00",
        Some(Refused(1, 80)),
    ),
    Row("a statement behind a plan", "p s", Some(Refused(2, 76))),
    Row("a version behind a plan", "p v", Some(Refused(2, 76))),
    Row(
        "an unknown field behind a plan",
        "p 04 0001 02",
        Some(Refused(2, 76)),
    ),
    Row(
        "a faulty plan and a cut field",
        "03 0002 01 03 03",
        Some(Refused(5, 72)),
    ),
    Row(
        "a faulty plan and a statement",
        "03 0001 00 s",
        Some(Refused(4, 72)),
    ),
];

// Plans of a document without statements: the first stands at 4.
static PLANS_ALONE: &[Row] = &[
    Row("a plan of no names and no statements", "p", None),
    Row(
        "a plan of a name and no statements",
        "03 0002 01 01",
        Some(Refused(5, 4)),
    ),
    Row(
        "plans of equal numbers and no statements",
        "p p",
        Some(Refused(5, 8)),
    ),
];

#[test]
fn fields_of_plans(rt: HostRuntime) -> Result<(), Fail> {
    let statements =
        "v 02 000E 10 0001 05 i 02 000E 10 0001 01 i 02 000E 10 0001 64 i 02 000E 10 0001 02 i";
    check_behind(&rt, &bytes_of(&rt, statements)?, PLANS)?;
    check_behind(&rt, &bytes_of(&rt, "v")?, PLANS_ALONE)
}
