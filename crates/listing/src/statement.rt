// A statement: its name and its mark, then a line for each test and each action.
ghost use Rattle.listing.specs.Statements.{statement_text};

use crate::in_words::{Worded, write_each};
use crate::words::mark_label;
use std::fmt;
use tables::statement::Statement;

impl Worded for Statement {
    ghost worded = { statement_text };

    fn write_words<W: fmt::Write>(&self, f: &mut fmt::Formatter<W>) -> fmt::Result {
        write!(f, "STATEMENT {} {}", self.name.0, mark_label(self.mark))?;
        write_each(f, "\n  ", self.tests.as_slice())?;
        write_each(f, "\n  THEN ", self.then_actions.as_slice())?;
        write_each(f, "\n  ELSE ", self.else_actions.as_slice())
    }
}
