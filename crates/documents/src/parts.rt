// The fields of a statement's body, one reader each.
ghost use Rattle.std.specs.Prelude.{◌≡◌, ◌≤◌, [], ◌∷◌, ◌++◌, length, Some, MatchResult};
ghost use Rattle.bounded.specs.Held.{held};
ghost use Rattle.tables.specs.Lists.{member, listed};
ghost use Rattle.tables.specs.Rules.{begins};
ghost use Rattle.tables.specs.Tags.{statement_tag};
ghost use Rattle.documents.specs.Fields.{tag_before};
ghost use Rattle.documents.specs.Statements.{name_in, name_rules, mark_in, mark_rules, test_in, test_rules, action_in, action_rules};
ghost use Rattle.documents.specs.Reads.{Read, names_of, follows};

use crate::field::Field;
use crate::lines::{action_in, sum_of_delays, test_in};
use bounded::BoundedList;
use tables::action::Action;
use tables::code::Cases;
use tables::codes::tags::StatementField;
use tables::limits::{MAX_ACTIONS, MAX_DELAY, MAX_TESTS};
use tables::refusal::Refusal;
use tables::statement::{Mark, Name, Statement};
use tables::test::{Join, JoinedTest};

/// Whether one of these statements has this name.
pub(crate) fn is_named(statements: &[Statement], name: Name) -> bool
    ensures { result ≡ member name.0 (names_of statements.now) }
{
    // A plain loop: with `any` a document whose plans list many names took three times the instructions to read, and `position`,
    // `find` and a fold were no better where a search was repeated.
    for statement in statements {
        if name == statement.name {
            return true;
        }
    }
    false
}

/// A name that none of the statements above has.
#[tactic(auto, using(std::proofs::lemmas::Bool::Decides::nat_tests), unfolding(crate::specs::Statements::name_rules))]
pub(crate) fn read_name(above: &[Statement], field: &Field<StatementField>) -> Result<Name, Refusal>
    ensures { let f = field.now in Read f.place
        (name_rules (names_of above.now) (tag_before statement_tag f.before) f.body.now)
        (λ v. v.0 ≡ name_in f.body.now) result }
{
    let [name] = *field.body_if_due::<1>(field.before.is_none())?;
    let Ok(name) = Name::try_from(u16::from(name)) else {
        return Err(Refusal::OutOfRange(field.place));
    };
    if is_named(above, name) {
        return Err(Refusal::Conflicting(field.place));
    }
    Ok(name)
}

/// A mark, right after the name.
#[tactic(auto, using(std::proofs::lemmas::Bool::Decides::nat_tests), unfolding(crate::specs::Statements::mark_rules))]
pub(crate) fn read_mark(field: &Field<StatementField>) -> Result<Mark, Refusal>
    ensures { let f = field.now in Read f.place
        (mark_rules (tag_before statement_tag f.before) f.body.now)
        (λ v. mark_in f.body.now ≡ Some v) result }
{
    let [mark] = *field.body_if_due::<1>(field.before == Some(StatementField::Name))?;
    Mark::with_code(mark).ok_or(Refusal::OutOfRange(field.place))
}

/// Adds what was read from the field at this place to a list, or refuses it where the list is full.
pub(crate) fn add<T: Copy, const N: usize>(
    list: &mut BoundedList<T, N>,
    item: T,
    place: usize,
) -> Result<(), Refusal>
    ensures { MatchResult result
        (λ _. held list.new ≡ held list.old ++ item ∷ [])
        (λ e. (N ≤ length (held list.old)) × (e ≡ Refusal.TooMany place)) }
{
    list.push(item).map_err(|_| Refusal::TooMany(place))
}

// Whether a test begins the IF of its statement.
fn begins(join: Join) -> bool
    ensures { result ≡ begins join }
{
    matches!(join, Join::First)
}

/// Adds a test to those above it.
#[tactic(auto, using(std::proofs::lemmas::Bool::Decides::nat_tests, crate::proofs::KeptTests::begins_by_code), unfolding(crate::specs::Statements::test_rules))]
pub(crate) fn add_test(
    tests: &mut BoundedList<JoinedTest, MAX_TESTS>,
    field: &Field<StatementField>,
) -> Result<(), Refusal>
    requires { field.now.kind ≡ StatementField.Test }
    ensures { let f = field.now in Read f.place
        (test_rules (tag_before statement_tag f.before) (length (held tests.old)) f.body.now)
        (λ _. held tests.new ≡ held tests.old ++ listed (test_in f.body.now)) result }
{
    let body = field.body_if_due(field.follows(StatementField::Name))?;
    if tests.len() >= MAX_TESTS {
        return Err(Refusal::TooMany(field.place));
    }
    let test = test_in(body).ok_or(Refusal::OutOfRange(field.place))?;
    if begins(test.join) != (tests.len() == 0) {
        return Err(Refusal::OutOfRange(field.place));
    }
    add(tests, test, field.place)
}

/// Adds an action to those of its branch above it.
#[tactic(auto, using(std::proofs::lemmas::Bool::Decides::nat_tests), unfolding(crate::specs::Statements::action_rules))]
pub(crate) fn add_action(
    actions: &mut BoundedList<Action, MAX_ACTIONS>,
    field: &Field<StatementField>,
) -> Result<(), Refusal>
    ensures { let f = field.now in Read f.place
        (action_rules (follows statement_tag StatementField.Test f) (held actions.old) f.body.now)
        (λ _. held actions.new ≡ held actions.old ++ listed (action_in f.body.now)) result }
{
    let body = field.body_if_due(field.follows(StatementField::Test))?;
    if actions.len() >= MAX_ACTIONS {
        return Err(Refusal::TooMany(field.place));
    }
    let action = action_in(body).ok_or(Refusal::OutOfRange(field.place))?;
    add(actions, action, field.place)?;
    if sum_of_delays(actions) > u32::from(MAX_DELAY) {
        return Err(Refusal::DelaysTooLong(field.place));
    }
    Ok(())
}
