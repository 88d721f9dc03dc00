// A table from a document.
ghost use Rattle.std.specs.Prelude.{◌≡◌, [], IfErr, Ok, Err, MatchResult};
ghost use Rattle.tables.specs.Refusals.{told};
ghost use Rattle.tables.specs.Contents.{rows_of};
ghost use Rattle.tables.specs.Tags.{document_tag};
ghost use Rattle.documents.specs.Fields.{tag_before};
ghost use Rattle.documents.specs.Documents.{version_rules, table_in, reading};
ghost use Rattle.documents.specs.Drafts.{Added};
ghost use Rattle.documents.specs.Reads.{Read};
ghost use Rattle.documents.specs.Refused.{FirstFault, AtAField};

use crate::draft::Draft;
use crate::field::Field;
use crate::fields::Fields;
use crate::parts::add;
use crate::plan::read_plan;
use crate::statement::read_statement;
use tables::codes::tags::DocumentField;
use tables::refusal::Refusal;
use tables::table::Table;

/// The version that documents have.
pub const THE_VERSION: u8 = 1;

// The version, which comes first.
#[tactic(auto, using(std::proofs::lemmas::Bool::Decides::nat_tests), unfolding(crate::specs::Documents::version_rules))]
fn read_version(field: &Field<DocumentField>) -> Result<(), Refusal>
    ensures { let f = field.now in Read f.place
        (version_rules (tag_before document_tag f.before) f.body.now)
        (λ _. Unit {0}) result }
{
    let [version] = *field.body_if_due::<1>(field.before.is_none())?;
    if version != THE_VERSION {
        return Err(Refusal::OutOfRange(field.place));
    }
    Ok(())
}

// Takes one field of a document into the table under construction.
fn take_field(draft: &mut Draft, field: &Field<DocumentField>) -> Result<(), Refusal>
    ensures { Added field.now draft.old draft.new result }
{
    match field.kind {
        DocumentField::Version => read_version(field)?,
        DocumentField::Statement => {
            if !field.follows(DocumentField::Version) {
                return Err(Refusal::NotDue(field.place));
            }
            let statement = read_statement(draft.statements.as_slice(), field)?;
            add(&mut draft.statements, statement, field.place)?;
        }
        DocumentField::Plan => {
            let plan = read_plan(draft.statements.as_slice(), draft.plans.as_slice(), field)?;
            add(&mut draft.plans, plan, field.place)?;
        }
    }
    Ok(())
}

// The table that a document says, or the refusal of its first fault.
fn table_in(document: &[u8]) -> Result<Table, Refusal>
    ensures { MatchResult result (λ t. reading document.now ≡ Ok (rows_of t)) (λ e. reading document.now ≡ Err (told e)) }
{
    // Without any field it lacks its version.
    if document.is_empty() {
        return Err(Refusal::NotDue(0));
    }
    let mut draft = Draft::new();
    for field in Fields::new(0, document) {
        take_field(&mut draft, &field?)?;
    }
    Ok(draft.finish())
}

/// The table of a document without statements and plans.
pub fn empty_table() -> Table
    ensures { rows_of result ≡ table_in [] }
{
    Draft::new().finish()
}

/// Reads a document of any bytes: its table, which keeps every rule, or the refusal of its first fault, with the place where
/// the field at fault begins.
pub fn read_document(document: &[u8]) -> Result<Table, Refusal>
    ensures answer { MatchResult result (λ t. reading document.now ≡ Ok (rows_of t)) (λ e. reading document.now ≡ Err (told e)) }
    ensures first { IfErr result (λ e. FirstFault document.now (told e)) }
    ensures place { IfErr result (λ e. AtAField document.now (told e)) }
{
    table_in(document)
}
