// The line of a test.
ghost use Rattle.listing.specs.Lines.{test_text, test_line};

use crate::family::family_tested;
use crate::in_words::{InWords, Worded};
use crate::words::{comparison_label, join_label, state_label};
use std::fmt;
use tables::test::{JoinedTest, Test};

impl Worded for Test {
    ghost worded = { test_text };

    fn write_words<W: fmt::Write>(&self, f: &mut fmt::Formatter<W>) -> fmt::Result {
        match *self {
            Test::PlaceIs(place, state) => write!(
                f,
                "{} IS {}",
                InWords(&place),
                state_label(state)
            ),
            Test::MemberIs(member, state) => {
                write!(
                    f,
                    "{} {} IS {}",
                    family_tested(member.family),
                    member.number,
                    state_label(state)
                )
            }
            Test::StatementIs(name, state) => write!(
                f,
                "LOGIC STATEMENT {} IS {}",
                name.0,
                state_label(state)
            ),
            Test::NumberIs(number, comparison, entry) => {
                write!(
                    f,
                    "{} {} {}",
                    InWords(&number),
                    comparison_label(comparison),
                    u16::from(entry)
                )
            }
        }
    }
}

impl Worded for JoinedTest {
    ghost worded = { test_line };

    fn write_words<W: fmt::Write>(&self, f: &mut fmt::Formatter<W>) -> fmt::Result {
        write!(f, "{} {}", join_label(self.join), InWords(&self.test))
    }
}
