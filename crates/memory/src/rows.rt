// The wait records of the hundred names, as plain rows. A record lies in no row: it is made from its row after a check, and
// written back whole.
ghost use Rattle.std.specs.Prelude.{◌≡◌, ◌-◌, ◌≤◌, false, length, replicate, Decides};
ghost use Rattle.std.specs.Cmp.Rules.{comparing};
ghost use Rattle.std.specs.Ordering.{on};
ghost use Rattle.std.proofs.Common.{rules};
ghost use Rattle.tables.specs.Limits.{last_name, counted_to};
ghost use Rattle.rules.specs.Memory.{no_wait, wait_of, with_wait};
ghost use Rattle.rules.specs.Scanning.{stepped};
ghost use Rattle.memory.specs.Waits.{wait_in, same_record, row_wait, waits_in};

use crate::wait::Wait;
use rules::branch::Branch;
use tables::limits::{LAST_NAME, MAX_NAMES};
use tables::statement::Name;
use tables::time::Tenths;

/// What is kept of a wait record: a branch and a count, of any value.
#[derive(Clone, Copy)]
pub struct WaitRow {
    branch: Branch,
    count: Tenths,
}

// Two rows are equal where they read as the same record, whatever lies in them.
impl PartialEq for WaitRow {
    ghost eq = { on row_wait same_record };

    ghost laws = { Prim.search (comparing, rules) };

    fn eq(&self, other: &WaitRow) -> bool {
        Wait::from_row(self) == Wait::from_row(other)
    }
}

impl Eq for WaitRow {
    ghost laws = { Prim.search (comparing, rules) };
}

/// The rows of the hundred names; the row of name 1 is the first.
#[derive(PartialEq, Eq, Drop)]
pub struct WaitTable {
    rows: [WaitRow; MAX_NAMES],
}

impl Wait {
    /// The record of a row, or none where no record could give the row.
    pub fn from_row(row: &WaitRow) -> Self
        ensures { wait_in result ≡ row_wait row.now }
    {
        Wait::checked(row.branch, row.count)
    }

    /// The row of a record: reading it gives the record back.
    pub fn row(&self) -> WaitRow
        ensures { row_wait result ≡ wait_in self.now }
    {
        WaitRow {
            branch: self.branch(),
            count: self.count(),
        }
    }
}

// Steps the record of one row, and answers its count.
fn step_row(row: &mut WaitRow, taken: Branch) -> Tenths
    ensures step { row_wait row.new ≡ stepped (row_wait row.old) taken }
    ensures count { result.0 ≡ (stepped (row_wait row.old) taken).count }
{
    let mut wait = Wait::from_row(row);
    wait.step(taken);
    *row = wait.row();
    wait.count()
}

// Where the row of a name stands.
fn index(name: Name) -> usize
    requires { 1 ≤ name.0 }
    ensures { result ≡ name.0 - 1 }
{
    usize::from(name.0) - 1
}

impl WaitTable {
    /// No name holds a branch.
    pub fn new() -> Self
        ensures { waits_in result ≡ replicate last_name no_wait }
    {
        WaitTable {
            rows: [Wait::none().row(); MAX_NAMES],
        }
    }

    /// Makes every name hold no branch.
    pub fn clear(&mut self)
        ensures { waits_in self.new ≡ replicate last_name no_wait }
    {
        *self = WaitTable::new();
    }

    /// Steps the record of a name, and no other, and answers its count.
    // The range stands here and not in `Name`, since other public calls take any number as a name.
    pub fn step(&mut self, name: Name, taken: Branch) -> Tenths
        requires { (1 ≤ name.0) × (name.0 ≤ last_name) }
        ensures waits { waits_in self.new ≡ with_wait name.0 (stepped (wait_of name.0 (waits_in self.old)) taken) (waits_in self.old) }
        ensures count { result.0 ≡ (stepped (wait_of name.0 (waits_in self.old)) taken).count }
        ensures whole { length (waits_in self.old) ≡ last_name }
    {
        step_row(&mut self.rows[index(name)], taken)
    }

    /// The record of a name, or none for a number that is no name's.
    pub fn wait(&self, name: Name) -> Wait
        ensures named { 1 ≤ name.0 → name.0 ≤ last_name → wait_in result ≡ wait_of name.0 (waits_in self.now) }
        ensures unnamed { counted_to last_name name.0 ≡ false → wait_in result ≡ no_wait }
    {
        match name.0 {
            1..=LAST_NAME => Wait::from_row(&self.rows[index(name)]),
            _ => Wait::none(),
        }
    }

    /// Whether two tables have the same records.
    pub fn same(&self, other: &WaitTable) -> bool
        ensures { Decides result (waits_in self.now ≡ waits_in other.now) }
    {
        self == other
    }
}
