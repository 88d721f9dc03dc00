// What the IF of a statement asks.
use crate::family::Member;
use crate::number::{Entry, Number};
use crate::place::{Place, State};
use crate::statement::Name;

// Not an option of the last two: the first test has a code and a word of its own, as they have.
/// How a test is joined to those above it.
#[derive(Clone, Copy)]
pub enum Join {
    First = 0,
    And = 1,
    Or = 2,
}

/// How a number of the frame is compared with an entry.
#[derive(Clone, Copy)]
pub enum Comparison {
    Is = 0,
    IsNot = 1,
    Greater = 2,
    Less = 3,
}

/// One test.
#[derive(Clone, Copy)]
pub enum Test {
    PlaceIs(Place, State),
    MemberIs(Member, State),
    StatementIs(Name, State),
    NumberIs(Number, Comparison, Entry),
}

/// A test and how it is joined to those above it.
#[derive(Clone, Copy)]
pub struct JoinedTest {
    pub join: Join,
    pub test: Test,
}
