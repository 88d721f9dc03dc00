// Functions whose contracts state how writing and reading go together.
ghost use Rattle.writing.specs.Written.{WrittenTablesAreReadBack, AcceptedDocumentsAreWrittenTables, SameBytesSameTable, NoDocumentIsLonger, OneDocumentIsThatLong, AcceptanceIsBeingAWrittenTable, longest};
ghost use Rattle.std.specs.Prelude.{◌≡◌};

/// Reading the bytes of a table that keeps the rules gives that table.
pub fn written_tables_are_read_back()
    ensures { WrittenTablesAreReadBack }
{}

/// An accepted document is the bytes of its table, but that it may spell out absent marks.
pub fn accepted_documents_are_written_tables()
    ensures { AcceptedDocumentsAreWrittenTables }
{}

/// Tables that keep the rules and have the same bytes are the same table.
pub fn same_bytes_same_table()
    ensures { SameBytesSameTable }
{}

/// No accepted document is longer than 34,704 bytes, and one has that length.
pub fn the_longest_document()
    ensures bound { NoDocumentIsLonger }
    ensures reached { OneDocumentIsThatLong }
    ensures length { longest ≡ 34704 }
{}

/// A document is accepted exactly when it is the writing of some table that keeps the rules.
pub fn acceptance_is_being_a_written_table()
    ensures { AcceptanceIsBeingAWrittenTable }
{}
