// A statement from the body of its field.
ghost use Rattle.std.specs.Prelude.{◌≡◌, ◌+◌, [], Some, None, MatchResult};
ghost use Rattle.tables.specs.Refusals.{told};
ghost use Rattle.tables.specs.Rows.{statement_row};
ghost use Rattle.documents.specs.Fields.{pieces};
ghost use Rattle.documents.specs.Statements.{statement_fault, statement_in};
ghost use Rattle.documents.specs.Reads.{names_of, Taken};

use crate::field::{Field, HEAD};
use crate::fields::Fields;
use crate::parts::{add_action, add_test, read_mark, read_name};
use bounded::BoundedList;
use tables::action::Action;
use tables::codes::tags::{DocumentField, StatementField};
use tables::place::State;
use tables::refusal::Refusal;
use tables::statement::{Mark, Name, Statement};
use tables::test::{Join, JoinedTest, Test};
use tables::time::Tenths;

// What a name, a test or an action is before it is read: the filler of lists.
const NO_NAME: Name = Name(0);

const NO_ACTION: Action = Action::Delay(Tenths(0));

const NO_TEST: JoinedTest = JoinedTest {
    join: Join::First,
    test: Test::StatementIs(NO_NAME, State::Off),
};

/// A statement before any of its fields is read: an absent mark stands for disabled.
pub(crate) fn unread() -> Statement
    ensures { statement_row result ≡ statement_in [] }
{
    Statement {
        name: NO_NAME,
        mark: Mark::Disabled,
        tests: BoundedList::new(NO_TEST),
        then_actions: BoundedList::new(NO_ACTION),
        else_actions: BoundedList::new(NO_ACTION),
    }
}

// Takes one field of a statement's body into the statement.
fn take_part(
    statement: &mut Statement,
    above: &[Statement],
    field: &Field<StatementField>,
) -> Result<(), Refusal>
    ensures { Taken (names_of above.now) field.now statement.old statement.new result }
{
    match field.kind {
        StatementField::Name => statement.name = read_name(above, field)?,
        StatementField::Mark => statement.mark = read_mark(field)?,
        StatementField::Test => add_test(&mut statement.tests, field)?,
        StatementField::ThenAction => add_action(&mut statement.then_actions, field)?,
        StatementField::ElseAction => add_action(&mut statement.else_actions, field)?,
    }
    Ok(())
}

/// The statement in a field, where these statements stand above it.
pub(crate) fn read_statement(
    above: &[Statement],
    field: &Field<DocumentField>,
) -> Result<Statement, Refusal>
    ensures { let f = field.now in MatchResult result
        (λ s. (statement_fault (names_of above.now) f.place f.body.now ≡ None) × (statement_row s ≡ statement_in (pieces (f.place + 3) 0 f.body.now)))
        (λ e. statement_fault (names_of above.now) f.place f.body.now ≡ Some (told e)) }
{
    let mut statement = unread();
    for part in Fields::new(field.place + HEAD, field.body) {
        take_part(&mut statement, above, &part?)?;
    }
    // It needs a name and a test, and the test comes second.
    if statement.tests.len() == 0 {
        return Err(Refusal::NotDue(field.place));
    }
    Ok(statement)
}
