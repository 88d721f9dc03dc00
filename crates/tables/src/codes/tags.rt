// The fields of a table document, by the tags with which they begin.
ghost use Rattle.tables.specs.Tags.{document_tag, document_fields, statement_tag, statement_fields};

use crate::code::{Cases, Coded};

/// The fields of a document, in their order.
#[derive(Clone, Copy, PartialEq, Eq, PartialOrd, Ord)]
pub enum DocumentField {
    Version = 1,
    Statement = 2,
    Plan = 3,
}

/// The fields of a statement's body, in their order.
#[derive(Clone, Copy, PartialEq, Eq, PartialOrd, Ord)]
pub enum StatementField {
    Name = 16,
    Mark = 17,
    Test = 18,
    ThenAction = 19,
    ElseAction = 20,
}

const DOCUMENT_FIELDS: [DocumentField; 3] = [
    DocumentField::Version,
    DocumentField::Statement,
    DocumentField::Plan,
];

const STATEMENT_FIELDS: [StatementField; 5] = [
    StatementField::Name,
    StatementField::Mark,
    StatementField::Test,
    StatementField::ThenAction,
    StatementField::ElseAction,
];

// An impl for each, as in `cases`: only where the type is named can a case be cast to its code.
impl Coded for DocumentField {
    ghost coded = { document_tag };

    fn code(self) -> u8 {
        self as u8
    }
}

impl Cases for DocumentField {
    ghost cases = { document_fields };

    fn all() -> &'static [DocumentField] {
        &DOCUMENT_FIELDS
    }
}

impl Coded for StatementField {
    ghost coded = { statement_tag };

    fn code(self) -> u8 {
        self as u8
    }
}

impl Cases for StatementField {
    ghost cases = { statement_fields };

    fn all() -> &'static [StatementField] {
        &STATEMENT_FIELDS
    }
}
