// What a panel asks. Nothing here changes the processor.
ghost use Rattle.std.specs.Prelude.{◌≡◌, ℕ, ◌<◌, true, false, length, IfSome, IfOk, Decides, MatchOption, slice_index_or};
ghost use Rattle.tables.specs.Limits.{last_flag};
ghost use Rattle.tables.specs.Rows.{statement_row};
ghost use Rattle.tables.specs.Rules.{statement_keeps};
ghost use Rattle.cells.specs.Cells.{packed_cell};
ghost use Rattle.rules.specs.Memory.{wait_of};
ghost use Rattle.rules.specs.Calls.{has_name, Named, AskedOf, TouchAsked, StatementTimeLeft};
ghost use Rattle.rules.specs.RunsAlike.{cells_of, flags_of, waits_of};
ghost use Rattle.memory.specs.Flags.{flag_bytes};
ghost use Rattle.memory.specs.Waits.{wait_in};
ghost use Rattle.processor.specs.States.{state};

use crate::parts::Processor;
use cells::store::CellStore;
use memory::flags::FLAG_BYTES;
use memory::wait::Wait;
use reordering::by_name::find;
use scanning::acting::BranchActions;
use tables::refusal::Refusal;
use tables::statement::{Mark, Name, Statement};
use touching::touch::touches;

impl<S: CellStore> Processor<S> {
    /// The cells.
    pub fn store(&self) -> &S
        ensures { S.cells result.now ≡ cells_of (state S.cells self.now) }
    {
        &self.memory.places.store
    }

    /// All flags, eight to a byte: flag f is bit (f - 1) mod 8 of byte (f - 1) div 8.
    pub fn flags(&self) -> [u8; FLAG_BYTES]
        ensures size { length result ≡ flag_bytes }
        ensures bits { (i : ℕ) → i < last_flag → packed_cell result i ≡ slice_index_or (flags_of (state S.cells self.now)) i false }
    {
        self.memory.places.flags.bytes()
    }

    /// Whether another processor has the same flags ON.
    pub fn same_flags<T: CellStore>(&self, other: &Processor<T>) -> bool
        ensures { Decides result (flags_of (state S.CellStore.cells self.now) ≡ flags_of (state T.CellStore.cells other.now)) }
    {
        self.memory.places.flags == other.memory.places.flags
    }

    /// Whether another processor has the same wait record for every name.
    pub fn same_waits<T: CellStore>(&self, other: &Processor<T>) -> bool
        ensures { Decides result (waits_of (state S.CellStore.cells self.now) ≡ waits_of (state T.CellStore.cells other.now)) }
    {
        self.memory.waits == other.memory.waits
    }

    /// How many statements the table has.
    pub fn statement_count(&self) -> usize
        ensures { result ≡ length (state S.cells self.now).table.statements }
    {
        self.table.statements().len()
    }

    /// The statement of a name, with its mark.
    pub fn statement(&self, name: Name) -> Option<&Statement>
        ensures named { MatchOption result (has_name name.0 (state S.cells self.now).table.statements ≡ false)
            (λ s. Named (state S.cells self.now).table.statements name.0 (statement_row s.now)) }
        ensures keeps { IfSome result (λ s. statement_keeps (statement_row s.now) ≡ true) }
    {
        let statements = self.table.statements();
        let at = find(statements, name)?;
        Some(&statements[at])
    }

    // The statement of a name, or a refusal where there is none.
    fn named(&self, name: Name) -> Result<&Statement, Refusal>
        ensures named { AskedOf (state S.cells self.now).table.statements name.0 (λ s found. statement_row found.now ≡ s) result }
        ensures keeps { IfOk result (λ s. statement_keeps (statement_row s.now) ≡ true) }
    {
        self.statement(name).ok_or(Refusal::NoSuchStatement)
    }

    /// The mark of the statement of a name.
    pub fn mark(&self, name: Name) -> Result<Mark, Refusal>
        ensures { AskedOf (state S.cells self.now).table.statements name.0 (λ s mark. mark ≡ s.mark) result }
    {
        Ok(self.named(name)?.mark)
    }

    /// The wait record of the statement of a name.
    pub fn wait(&self, name: Name) -> Result<Wait, Refusal>
        ensures { AskedOf (state S.cells self.now).table.statements name.0 (λ s wait. wait_in wait ≡ wait_of s.name (waits_of (state S.cells self.now))) result }
    {
        let statement = self.named(name)?;
        Ok(self.memory.waits.wait(statement.name))
    }

    /// Whether the statements of two names touch.
    pub fn touch(&self, a: Name, b: Name) -> Result<bool, Refusal>
        ensures { TouchAsked (state S.cells self.now).table.statements a.0 b.0 result }
    {
        Ok(touches(self.named(a)?, self.named(b)?))
    }

    /// Seconds and tenths until the next action of a statement is due on the branch that it holds, or none where nothing waits.
    pub fn time_left(&self, name: Name) -> Result<Option<(u16, u16)>, Refusal>
        ensures { AskedOf (state S.cells self.now).table.statements name.0 (StatementTimeLeft (state S.cells self.now)) result }
    {
        let statement = self.named(name)?;
        let wait = self.memory.waits.wait(statement.name);
        Ok(BranchActions::of(statement, wait.branch()).time_left(wait.count()))
    }
}
