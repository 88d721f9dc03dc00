// Whether two statements touch.
ghost use Rattle.std.specs.Prelude.{Decides};
ghost use Rattle.tables.specs.Rows.{statement_row};
ghost use Rattle.rules.specs.Touching.{named_by, Touch};
ghost use Rattle.touching.specs.Sharing.{SetsSome, SetsOneOf, BothSet, SetsNamed};

use crate::names_places::NamesPlaces;
use crate::sharing::share_place;
use tables::statement::Statement;

// Whether either branch of a statement sets a place that one of the lines names.
fn sets_place_of<L: NamesPlaces>(statement: &Statement, lines: &[L]) -> bool
    ensures { Decides result (SetsOneOf (statement_row statement.now) (named_by L.NamesPlaces.named lines.now)) }
{
    share_place(statement.then_actions.as_slice(), lines)
        || share_place(statement.else_actions.as_slice(), lines)
}

// Whether some place is set by both statements.
fn both_set(a: &Statement, b: &Statement) -> bool
    ensures { Decides result (BothSet (statement_row a.now) (statement_row b.now)) }
{
    sets_place_of(a, b.then_actions.as_slice()) || sets_place_of(a, b.else_actions.as_slice())
}

// Whether the first statement sets a place that the second sets or tests.
fn sets_named(first: &Statement, second: &Statement) -> bool
    ensures { Decides result (SetsNamed (statement_row first.now) (statement_row second.now)) }
{
    both_set(first, second) || sets_place_of(first, second.tests.as_slice())
}

/// Whether two statements touch: one of them sets a place that the other sets or tests, by lines of either branch and whatever
/// their marks and waits. So a statement touches itself exactly where it sets a place.
pub fn touches(a: &Statement, b: &Statement) -> bool
    ensures { Decides result (Touch (statement_row a.now) (statement_row b.now)) }
{
    sets_named(a, b) || sets_named(b, a)
}

/// Whether a statement touches itself: exactly where it sets a place.
pub fn touches_itself(statement: &Statement) -> bool
    ensures touch { Decides result (Touch (statement_row statement.now) (statement_row statement.now)) }
    ensures sets { Decides result (SetsSome (statement_row statement.now)) }
{
    touches(statement, statement)
}
