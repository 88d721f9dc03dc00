// What the actions of a branch write.
ghost use Rattle.std.specs.Prelude.{◌≡◌, ◌+◌, ◌≤◌, true, List, ◌∷◌};
ghost use Rattle.tables.specs.Limits.{max_delay};
ghost use Rattle.tables.specs.Rows.{statement_row};
ghost use Rattle.tables.specs.Rules.{delay, delays, statement_keeps};
ghost use Rattle.rules.specs.Acting.{timed, due, written_at, after_writes};
ghost use Rattle.rules.specs.Scanning.{actions as actions_of};
ghost use Rattle.memory.specs.Flags.{places_of};

use crate::places::{set_all, set_place};
use cells::store::CellStore;
use memory::flags::FlagTable;
use rules::branch::Branch;
use tables::action::Action;
use tables::statement::Statement;
use tables::time::Tenths;

/// The actions of a branch of a statement. Their DELAYs sum to the longest wait at most.
#[derive(Clone, Copy)]
pub struct BranchActions<'a> {
    pub(crate) actions: &'a [Action],
    ghost short: { delays actions.now ≤ max_delay },
}

impl<'a> BranchActions<'a> {
    /// These actions, one below the other.
    pub fn new(actions: &'a [Action]) -> Self
        requires { delays actions.now ≤ max_delay }
        ensures { result.actions.now ≡ actions.now }
    {
        BranchActions { actions }
    }

    /// Those of a branch of a statement that keeps the rules.
    pub fn of(statement: &'a Statement, branch: Branch) -> Self
        requires { statement_keeps (statement_row statement.now) ≡ true }
        ensures { result.actions.now ≡ actions_of (statement_row statement.now) branch }
    {
        BranchActions::new(match branch {
            Branch::Neither => &[],
            Branch::Then => statement.then_actions.as_slice(),
            Branch::Else => statement.else_actions.as_slice(),
        })
    }
}

// Takes one action, below DELAYs that sum to `wait`: sets its places if the wait is at most the count, and answers the wait of
// the actions below it.
fn act_one<S: CellStore>(
    action: Action,
    count: Tenths,
    wait: Tenths,
    store: &mut S,
    flags: &mut FlagTable,
) -> Tenths
    requires { wait.0 + delay action ≤ max_delay }
    ensures wait { result.0 ≡ wait.0 + delay action }
    ensures places { (more : List Action)
        → after_writes (due count.0 (timed result.0 more)) (places_of (S.cells store.new) flags.new)
        ≡ after_writes (due count.0 (timed wait.0 (action ∷ more))) (places_of (S.cells store.old) flags.old) }
{
    match action {
        Action::SetPlace(place, state) => {
            if wait <= count {
                set_place(store, flags, place, state);
            }
            wait
        }
        Action::SetMember(member, state) => {
            if wait <= count {
                set_all(store, flags, member.cells(), state);
            }
            wait
        }
        Action::Delay(tenths) => Tenths(wait.0 + tenths.0),
    }
}

// Runs from the top the actions of a branch whose wait is at most the count.
#[tactic(auto, unfolding(rules::specs::Acting::written_at))]
pub(crate) fn act<S: CellStore>(
    branch: BranchActions,
    count: Tenths,
    store: &mut S,
    flags: &mut FlagTable,
)
    ensures { places_of (S.cells store.new) flags.new
        ≡ after_writes (written_at count.0 branch.entry.actions.now) (places_of (S.cells store.old) flags.old) }
{
    let mut wait = Tenths(0);
    for action in branch.actions {
        wait = act_one(*action, count, wait, store, flags);
    }
}
