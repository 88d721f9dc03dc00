// A mark switched, and a restart.
ghost use Rattle.std.specs.Prelude.{Ok};
ghost use Rattle.rules.specs.Reordering.{answered};
ghost use Rattle.rules.specs.Calls.{Rule, switch as switch_call, restart as restart_call};
ghost use Rattle.processor.specs.States.{state};

use crate::parts::Processor;
use cells::store::CellStore;
use reordering::by_name::find;
use tables::refusal::Refusal;
use tables::statement::{Mark, Name};

impl<S: CellStore> Processor<S> {
    /// Gives the statement of a name the mark of a character, E, D or the full stop, and answers 0.
    pub fn switch(&mut self, name: Name, character: char) -> Result<usize, Refusal>
        ensures { Rule (switch_call name.0 character) (state S.cells self.old) (answered result) (state S.cells self.new) }
    {
        let at = find(self.table.statements(), name).ok_or(Refusal::NoSuchStatement)?;
        let mark = Mark::try_from(character)?;
        self.table.set_mark(at, mark);
        Ok(0)
    }

    /// Turns all cells and flags OFF and makes every name hold no branch, and answers 0. Table, order and marks stay.
    pub fn restart(&mut self) -> usize
        ensures { Rule restart_call (state S.cells self.old) (Ok result) (state S.cells self.new) }
    {
        self.memory.clear();
        0
    }
}
