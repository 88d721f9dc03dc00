// A plan on one line: its number, and the names that it lists.
ghost use Rattle.listing.specs.Statements.{name_text, plan_text};

use crate::in_words::{Worded, write_each};
use std::fmt;
use tables::plan::Plan;
use tables::statement::Name;

impl Worded for Name {
    ghost worded = { name_text };

    fn write_words<W: fmt::Write>(&self, f: &mut fmt::Formatter<W>) -> fmt::Result {
        write!(f, "{}", self.0)
    }
}

impl Worded for Plan {
    ghost worded = { plan_text };

    fn write_words<W: fmt::Write>(&self, f: &mut fmt::Formatter<W>) -> fmt::Result {
        write!(f, "PLAN {}:", self.number)?;
        write_each(f, " ", self.names.as_slice())
    }
}
