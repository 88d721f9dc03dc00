// A table under construction: some of a document's fields have been read, and the rules for the whole are still to be shown.
ghost use Rattle.std.specs.Prelude.{◌≡◌, true, []};
ghost use Rattle.tables.specs.Contents.{rows_of};
ghost use Rattle.tables.specs.Rules.{table_keeps};
ghost use Rattle.documents.specs.Documents.{table_in};
ghost use Rattle.documents.specs.Drafts.{draft_rows};

use crate::statement::unread;
use bounded::BoundedList;
use tables::limits::MAX_NAMES;
use tables::plan::Plan;
use tables::statement::{Name, Statement};
use tables::table::Table;

/// The statements and plans read so far.
#[derive(Clone, Copy)]
pub(crate) struct Draft {
    pub statements: BoundedList<Statement, MAX_NAMES>,
    pub plans: BoundedList<Plan, MAX_NAMES>,
}

impl Draft {
    /// Nothing read yet.
    pub(crate) fn new() -> Draft
        ensures { draft_rows result ≡ table_in [] }
    {
        let no_plan = Plan {
            number: 0,
            names: BoundedList::new(Name(0)),
        };
        Draft {
            statements: BoundedList::new(unread()),
            plans: BoundedList::new(no_plan),
        }
    }

    /// The table, now that it keeps the rules.
    pub(crate) fn finish(self) -> Table
        requires { table_keeps (draft_rows self) ≡ true }
        ensures { rows_of result ≡ draft_rows self }
    {
        Table::new(self.statements, self.plans)
    }
}
