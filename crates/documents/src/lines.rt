// The tests and actions that bodies hold.
ghost use Rattle.std.specs.Prelude.{◌≡◌};
ghost use Rattle.bounded.specs.Held.{held};
ghost use Rattle.tables.specs.Rules.{delay, delays};
ghost use Rattle.documents.specs.Statements.{test_in, action_in};

use bounded::BoundedList;
use tables::action::Action;
use tables::code::Cases;
use tables::codes::lines::{ActionCodes, TestCodes};
use tables::limits::MAX_ACTIONS;
use tables::test::{Join, JoinedTest, Test};
use tables::time::Tenths;

/// The test that a body holds, where each value is in range.
#[tactic(auto, unfolding(crate::specs::Statements::test_in))]
pub(crate) fn test_in(body: &[u8; 7]) -> Option<JoinedTest>
    ensures { result ≡ test_in body.now }
{
    let [
        join,
        kind,
        which_high,
        which_low,
        relation,
        entry_high,
        entry_low,
    ] = *body;
    let join = Join::with_code(join)?;
    let test = Test::try_from(TestCodes {
        kind,
        which: u16::from_be_bytes([which_high, which_low]),
        relation,
        entry: u16::from_be_bytes([entry_high, entry_low]),
    })
    .ok()?;
    Some(JoinedTest { join, test })
}

/// The action that a body holds, where each value is in range.
#[tactic(auto, unfolding(crate::specs::Statements::action_in))]
pub(crate) fn action_in(body: &[u8; 4]) -> Option<Action>
    ensures { result ≡ action_in body.now }
{
    let [kind, which_high, which_low, state] = *body;
    Action::try_from(ActionCodes {
        kind,
        which: u16::from_be_bytes([which_high, which_low]),
        state,
    })
    .ok()
}

// The time that an action adds to the waits of those below it.
fn delay_of(action: Action) -> Tenths
    ensures { result.0 ≡ delay action }
{
    match action {
        Action::Delay(tenths) => tenths,
        _ => Tenths(0),
    }
}

/// The sum of the DELAYs among the actions of a branch, in tenths.
#[tactic(auto, using(crate::proofs::Sums::delays_as_sum))]
pub(crate) fn sum_of_delays(actions: &BoundedList<Action, MAX_ACTIONS>) -> u32
    ensures { result ≡ delays (held actions.now) }
{
    actions
        .as_slice()
        .iter()
        .map(|action| u32::from(delay_of(*action).0))
        .sum()
}
