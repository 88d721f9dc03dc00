// Codes in a row that allow the same values: every family with every member, and every number with the entries at both
// ends of what it allows and just past them. A test is refused at 11, an action at 21.
use crate::action_values::{ActionRow, check_action};
use crate::rows::Refused;
use crate::test_values::{TestRow, check_test};
use std::process::Abort;
use std::test::Fail;

/// A label, the first and the last code, and the least and the greatest value that each of these codes allows.
struct Span(&'static str, u16, u16, u16, u16);

// What a value at a place is refused with: 4 outside the span.
fn refusal_of(span: &Span, value: u16, place: usize) -> Option<Refused> {
    if (span.3..=span.4).contains(&value) {
        None
    } else {
        Some(Refused(4, place))
    }
}

// The families and the members that a line may name. Only family 16 has no member 0.
static FAMILIES: &[Span] = &[
    Span("phases, overlaps, load switches and checks", 1, 15, 0, 16),
    Span("vehicle detectors", 16, 16, 1, 64),
    Span("ped detectors, hold and omits", 17, 20, 0, 16),
    Span("ring inputs", 21, 28, 0, 4),
    Span("alarms", 29, 29, 0, 16),
    Span("preempts", 30, 30, 0, 10),
];

// The numbers of a frame and the entries of a test of each.
static NUMBERS: &[Span] = &[
    Span("ring timers", 0, 23, 0, 255),
    Span("coordination plan", 24, 24, 0, 120),
    Span("cycle length", 25, 25, 0, 999),
    Span("offset", 26, 26, 0, 255),
    Span("local cycle timer", 27, 27, 0, 2047),
    Span("master cycle timer", 28, 28, 0, 999),
    Span("split timers", 29, 32, 0, 2047),
    Span("month", 33, 33, 1, 12),
    Span("day of month", 34, 34, 1, 31),
    Span("day of week", 35, 35, 1, 7),
    Span("hour", 36, 36, 0, 23),
    Span("minute and second", 37, 38, 0, 59),
    Span("tenth of a second", 39, 39, 0, 9),
    Span("volumes", 40, 103, 0, 2047),
    Span("occupancies", 104, 167, 0, 999),
    Span("split pattern", 168, 168, 1, 120),
    Span("detector plan", 169, 169, 1, 4),
    Span("day plan", 170, 170, 1, 16),
    Span("action plan", 171, 171, 1, 100),
    Span("controller", 172, 172, 1, 4),
    Span("sequence", 173, 173, 1, 16),
    Span("timing plan and recall plan", 174, 175, 1, 4),
];

// Checks every member of every family, tested and set.
fn check_members(rt: &(impl Abort + AllocGlobal)) -> Result<(), Fail> {
    for span in FAMILIES.iter() {
        for family in span.1..=span.2 {
            for member in 0..256u16 {
                let which = family.wrapping_mul(256) | member;
                let test = TestRow(span.0, 4, which, 1, 0, refusal_of(span, member, 11));
                let action = ActionRow(span.0, 4, which, 1, refusal_of(span, member, 21));
                let context = format!(in rt.alloc(); "family {family}, member {member}")?;
                check_test(rt, &test, &context, "n", 0, 0)?;
                check_action(rt, &action, &context, "n i", 0x13, 0)?;
            }
        }
    }
    Ok(())
}

// Checks entries of every number.
fn check_entries(rt: &(impl Abort + AllocGlobal)) -> Result<(), Fail> {
    for span in NUMBERS.iter() {
        for which in span.1..=span.2 {
            for entry in [0, span.3, span.4, span.4.saturating_add(1), 65535] {
                let row = TestRow(span.0, 6, which, 0, entry, refusal_of(span, entry, 11));
                let context = format!(in rt.alloc(); "number {which}, entry {entry}")?;
                check_test(rt, &row, &context, "n", 0, 0)?;
            }
        }
    }
    Ok(())
}

#[test]
fn members_and_entries(rt: HostRuntime) -> Result<(), Fail> {
    check_members(&rt)?;
    check_entries(&rt)
}
