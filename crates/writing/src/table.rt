// A table and its order written into a caller's buffer.
ghost use Rattle.std.specs.Prelude.{◌≡◌, ◌<◌, ◌≤◌, length, take, IfOk, Ok, MatchResult};
ghost use Rattle.tables.specs.Contents.{rows_of};
ghost use Rattle.tables.specs.Refusals.{told};
ghost use Rattle.documents.specs.Documents.{reading};
ghost use Rattle.writing.specs.Buffers.{WrittenInto, short_by};
ghost use Rattle.writing.specs.Bytes.{table_bytes, order_bytes};

use crate::body::{field_size, fields_size};
use crate::output::Output;
use documents::document::THE_VERSION;
use tables::codes::tags::DocumentField;
use tables::refusal::Refusal;
use tables::table::Table;

/// How many bytes a table takes.
fn table_size(table: &Table) -> usize
    ensures { result ≡ length (table_bytes (rows_of table.now)) }
{
    field_size(&THE_VERSION) + fields_size(table.statements()) + fields_size(table.plans())
}

/// Refuses a buffer that has fewer bytes than are needed.
fn check_room(bytes: usize, needed: usize) -> Result<(), Refusal>
    ensures { MatchResult result (λ _. needed ≤ bytes) (λ e. (bytes < needed) × (told e ≡ short_by needed)) }
{
    if bytes < needed {
        return Err(Refusal::BufferTooShort(needed));
    }
    Ok(())
}

/// Writes a table out as a document, and answers its length. A buffer that is too short is left as it was. Reading the bytes
/// written gives the table back.
pub fn write_table(table: &Table, buffer: &mut [u8]) -> Result<usize, Refusal>
    ensures written { WrittenInto (table_bytes (rows_of table.now)) buffer.old buffer.new result }
    ensures read_back { IfOk result (λ n. reading (take n buffer.new) ≡ Ok (rows_of table.now)) }
{
    check_room(buffer.len(), table_size(table))?;
    let mut output = Output::new(buffer);
    output.put_field(DocumentField::Version, &THE_VERSION);
    output.put_fields(DocumentField::Statement, table.statements());
    output.put_fields(DocumentField::Plan, table.plans());
    Ok(output.len())
}

/// Writes the order of a table's statements out, a byte a name, on the same terms.
pub fn write_order(table: &Table, buffer: &mut [u8]) -> Result<usize, Refusal>
    ensures { WrittenInto (order_bytes (rows_of table.now)) buffer.old buffer.new result }
{
    let statements = table.statements();
    check_room(buffer.len(), statements.len())?;
    let mut output = Output::new(buffer);
    output.put_names(statements);
    Ok(output.len())
}
