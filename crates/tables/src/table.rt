// A table of statements that keeps every rule: its type says so, and no other value of it can be made.
ghost use Rattle.std.specs.Prelude.{◌≡◌, ◌≤◌, true, map, length};
ghost use Rattle.bounded.specs.Held.{held};
ghost use Rattle.tables.specs.Limits.{last_name};
ghost use Rattle.tables.specs.Rows.{statement_row, table_rows, marked_at};
ghost use Rattle.tables.specs.Rules.{table_keeps};

use crate::limits::MAX_NAMES;
use crate::plan::Plan;
use crate::statement::{Mark, Statement};
use bounded::BoundedList;

/// The statements in their order, and the action plans.
#[derive(Clone, Copy)]
pub struct Table {
    statements: BoundedList<Statement, MAX_NAMES>,
    plans: BoundedList<Plan, MAX_NAMES>,
    ghost keeps: { table_keeps (table_rows (held statements) (held plans)) ≡ true },
}

impl Table {
    /// A table of parts that keep the rules.
    pub fn new(
        statements: BoundedList<Statement, MAX_NAMES>,
        plans: BoundedList<Plan, MAX_NAMES>,
    ) -> Table
        requires { table_keeps (table_rows (held statements) (held plans)) ≡ true }
        ensures statements { result.statements ≡ statements }
        ensures plans { result.plans ≡ plans }
    {
        Table { statements, plans }
    }

    /// Gives the statement at a place, counted from 0, another mark; past the end nothing changes.
    pub fn set_mark(&mut self, at: usize, mark: Mark)
        ensures statements { map statement_row (held self.new.statements) ≡ marked_at at mark (map statement_row (held self.old.statements)) }
        ensures plans { self.new.plans ≡ self.old.plans }
    {
        if let Some(statement) = self.statements.as_slice().get(at) {
            let statement = Statement { mark, ..*statement };
            self.statements.replace(at, statement);
        }
    }

    /// Puts statements in the place of all others, with the plans as they are.
    pub fn arrange(&mut self, statements: BoundedList<Statement, MAX_NAMES>)
        requires { table_keeps (table_rows (held statements) (held self.old.plans)) ≡ true }
        ensures statements { self.new.statements ≡ statements }
        ensures plans { self.new.plans ≡ self.old.plans }
    {
        self.statements = statements;
    }

    /// The statements, in their order.
    pub fn statements(&self) -> &[Statement]
        ensures value { result.now ≡ held self.now.statements }
        ensures bound { length result.now ≤ last_name }
    {
        self.statements.as_slice()
    }

    /// The plans, by rising number.
    pub fn plans(&self) -> &[Plan]
        ensures value { result.now ≡ held self.now.plans }
        ensures bound { length result.now ≤ last_name }
    {
        self.plans.as_slice()
    }
}
