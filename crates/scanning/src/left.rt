// How long until the next action of a branch is due.
ghost use Rattle.std.specs.Prelude.{◌≤◌, MatchOption};
ghost use Rattle.tables.specs.Lists.{Among};
ghost use Rattle.rules.specs.Acting.{Timed, timed, NextWait, TimeLeft};

use crate::acting::BranchActions;
use tables::action::Action;
use tables::time::Tenths;

impl BranchActions<'_> {
    // The least wait above the count among the actions that set places: the first such, since waits only grow. A chain would
    // carry the sum of the DELAYs beside each action before it could look for the first.
    fn next_wait(self, count: Tenths) -> Option<Tenths>
        ensures { MatchOption result ((a : Timed) → Among a (timed 0 self.entry.actions.now) → a.wait ≤ count.0) (λ w. NextWait self.entry.actions.now count.0 w.0) }
    {
        let mut wait = Tenths(0);
        for action in self.actions {
            if let Action::Delay(tenths) = action {
                wait = Tenths(wait.0 + tenths.0);
            } else if wait > count {
                return Some(wait);
            }
        }
        None
    }

    /// Seconds and tenths until the next of the actions is due, or none where nothing waits.
    pub fn time_left(self, count: Tenths) -> Option<(u16, u16)>
        ensures { TimeLeft self.entry.actions.now count.0 result }
    {
        let wait = self.next_wait(count)?;
        let left = wait.0 - count.0;
        Some((left / 10, left % 10))
    }
}
