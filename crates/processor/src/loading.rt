// A new processor, and tables brought in and out.
ghost use Rattle.std.specs.Prelude.{◌≡◌, [], length, take, IfOk, Ok};
ghost use Rattle.tables.specs.Contents.{rows_of};
ghost use Rattle.documents.specs.Documents.{table_in, reading};
ghost use Rattle.writing.specs.Buffers.{WrittenInto};
ghost use Rattle.writing.specs.Bytes.{table_bytes, order_bytes};
ghost use Rattle.rules.specs.Reordering.{answered};
ghost use Rattle.rules.specs.Calls.{fresh, Loads};
ghost use Rattle.processor.specs.States.{state};

use crate::parts::Processor;
use cells::store::CellStore;
use documents::document::{empty_table, read_document};
use scanning::turn::Memory;
use tables::refusal::Refusal;
use tables::table::Table;
use writing::table::{write_order, write_table};

impl<S: CellStore> Processor<S> {
    /// A processor over a store, restarted and with an empty table.
    pub fn new(store: S) -> Self
        ensures { state S.cells result ≡ fresh (table_in []) }
    {
        Processor {
            table: empty_table(),
            memory: Memory::new(store),
        }
    }

    /// Takes a table that was read: it replaces the one before, all else is as after a restart, and the answer is how many
    /// statements it has.
    pub fn load_table(&mut self, table: Table) -> usize
        ensures count { result ≡ length (rows_of table).statements }
        ensures after { state S.cells self.new ≡ fresh (rows_of table) }
    {
        self.table = table;
        self.memory.clear();
        self.statement_count()
    }

    /// Loads a document and answers how many statements it has: the table is replaced, and all else is as after a restart. A
    /// refused document changes nothing.
    pub fn load(&mut self, document: &[u8]) -> Result<usize, Refusal>
        ensures { Loads document.now (state S.cells self.old) (answered result) (state S.cells self.new) }
    {
        let table = read_document(document)?;
        Ok(self.load_table(table))
    }

    /// Writes the table out as a document, in its present order and with its present marks, and answers its length. A buffer that
    /// is too short is left as it was. Loading the bytes written gives the table back as it stands.
    pub fn write_out(&self, buffer: &mut [u8]) -> Result<usize, Refusal>
        ensures written { WrittenInto (table_bytes (state S.cells self.now).table) buffer.old buffer.new result }
        ensures read_back { IfOk result (λ n. reading (take n buffer.new) ≡ Ok (state S.cells self.now).table) }
    {
        write_table(&self.table, buffer)
    }

    /// Writes the order of the statements out, a byte a name, on the same terms.
    pub fn order(&self, buffer: &mut [u8]) -> Result<usize, Refusal>
        ensures { WrittenInto (order_bytes (state S.cells self.now).table) buffer.old buffer.new result }
    {
        write_order(&self.table, buffer)
    }
}
