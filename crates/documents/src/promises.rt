// Functions whose contracts state what holds of every document.
ghost use Rattle.documents.specs.Accepted.{AcceptedTablesKeepTheRules};
ghost use Rattle.documents.specs.Examples.{DocumentsAreReadAsWritten};
ghost use Rattle.documents.specs.Refused.{RefusalsAreOfTheFirstFault, RefusalsNameWhereAFieldBegins};

/// The table of an accepted document keeps every bound and rule.
pub fn accepted_tables_keep_the_rules()
    ensures { AcceptedTablesKeepTheRules }
{}

/// Every field before the one at fault is without fault, and no smaller number applies to it.
pub fn refusals_are_of_the_first_fault()
    ensures { RefusalsAreOfTheFirstFault }
{}

/// A refusal's place is 0, or where a field begins, whole or cut.
pub fn refusals_name_where_a_field_begins()
    ensures { RefusalsNameWhereAFieldBegins }
{}

/// Some documents and their answers, settled by evaluation.
pub fn documents_are_read_as_written()
    ensures { DocumentsAreReadAsWritten }
{}
