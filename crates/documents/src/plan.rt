// An action plan from the body of its field: its number, then the names that it lists.
ghost use Rattle.std.specs.Prelude.{◌≡◌, ◌≤◌, true, map, length};
ghost use Rattle.bounded.specs.Held.{held};
ghost use Rattle.tables.specs.Limits.{last_name, counted_to};
ghost use Rattle.tables.specs.Lists.{every, member, rising};
ghost use Rattle.tables.specs.Rows.{name_number, plan_row};
ghost use Rattle.tables.specs.Tags.{document_tag};
ghost use Rattle.documents.specs.Fields.{tag_before};
ghost use Rattle.documents.specs.Documents.{plan_rules, plan_in, newest_number};
ghost use Rattle.documents.specs.Reads.{Read, names_of};

use crate::field::Field;
use crate::parts::is_named;
use bounded::BoundedList;
use tables::codes::tags::DocumentField;
use tables::limits::MAX_NAMES;
use tables::plan::Plan;
use tables::refusal::Refusal;
use tables::statement::{Name, Statement};

// Whether a byte is a name, or a plan's number: both have one range.
fn in_range(n: u8) -> bool
    ensures { result ≡ counted_to last_name n }
{
    Name::try_from(u16::from(n)).is_ok()
}

// Whether each byte is a name.
fn all_in_range(names: &[u8]) -> bool
    ensures { result ≡ every (counted_to last_name) names.now }
{
    names.iter().all(|name| in_range(*name))
}

// Whether each name is the name of one of these statements.
fn all_named(statements: &[Statement], names: &[u8]) -> bool
    ensures { result ≡ every (λ n. member n (names_of statements.now)) names.now }
{
    names.iter().all(|name| is_named(statements, Name(*name)))
}

// Whether each of these names, all in range, is above the one before it.
fn all_rise(names: &[u8]) -> bool
    requires { every (counted_to last_name) names.now ≡ true }
    ensures { result ≡ rising 0 names.now }
{
    names.is_sorted_by(|before, name| before < name)
}

// The number of the last of some plans, 0 where there is none: that is below every plan's number.
fn last_number(plans: &[Plan]) -> u8
    ensures { result ≡ newest_number (map plan_row plans.now) }
{
    plans.last().map_or(0, |plan| plan.number)
}

// The names in some bytes, for which there is room.
fn names_in(bytes: &[u8]) -> BoundedList<Name, MAX_NAMES>
    requires { length bytes.now ≤ last_name }
    ensures { map name_number (held result) ≡ bytes.now }
{
    let mut names = BoundedList::new(Name(0));
    for byte in bytes {
        let _ = names.push(Name(*byte));
    }
    names
}

/// A plan of a table with these statements, after the plans above it.
#[tactic(auto, using(std::proofs::lemmas::Bool::Decides::nat_tests), unfolding(crate::specs::Documents::plan_rules))]
pub(crate) fn read_plan(
    statements: &[Statement],
    above: &[Plan],
    field: &Field<DocumentField>,
) -> Result<Plan, Refusal>
    requires { field.now.kind ≡ DocumentField.Plan }
    ensures { let f = field.now in Read f.place
        (plan_rules (tag_before document_tag f.before) (newest_number (map plan_row above.now)) (names_of statements.now) f.body.now)
        (λ v. plan_row v ≡ plan_in f.body.now) result }
{
    let [number, names @ ..] = field.body else {
        return Err(Refusal::NotDue(field.place));
    };
    if !field.follows(DocumentField::Version) || names.len() > MAX_NAMES {
        return Err(Refusal::NotDue(field.place));
    }
    if !in_range(*number) || !all_in_range(names) {
        return Err(Refusal::OutOfRange(field.place));
    }
    if *number <= last_number(above) || !all_rise(names) || !all_named(statements, names) {
        return Err(Refusal::Conflicting(field.place));
    }
    Ok(Plan {
        number: *number,
        names: names_in(names),
    })
}
