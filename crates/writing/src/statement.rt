// Statements and plans as the bodies of fields.
ghost use Rattle.std.specs.Prelude.{◌≡◌, ◌≤◌, false, ◌∷◌, map, length, if◌then◌else◌, Some, None};
ghost use Rattle.bounded.specs.Held.{held};
ghost use Rattle.tables.specs.Codes.{mark_code};
ghost use Rattle.tables.specs.Rows.{name_number, statement_row};
ghost use Rattle.writing.specs.Bytes.{is_absent, mark_bytes, statement_body};

use crate::body::{Body, field_size, fields_size};
use crate::output::Output;
use tables::code::Coded;
use tables::codes::tags::StatementField;
use tables::plan::Plan;
use tables::statement::{Mark, Statement};

// The byte of a mark that is spelled out: none where an absent mark says the same.
fn spelled(mark: Mark) -> Option<u8>
    ensures { result ≡ (if is_absent mark then None else Some (mark_code mark)) }
{
    match mark {
        Mark::Disabled => None,
        Mark::Enabled | Mark::Planned => Some(mark.code()),
    }
}

// How many bytes the field of a mark takes.
fn mark_size(mark: Mark) -> usize
    ensures value { result ≡ length (mark_bytes false mark) }
    ensures bound { result ≤ 4 }
{
    match mark {
        Mark::Disabled => 0,
        Mark::Enabled | Mark::Planned => field_size(&mark.code()),
    }
}

impl Body for Statement {
    ghost body = { λ s. statement_body false (statement_row s) };

    fn size(&self) -> usize {
        let name = field_size(&self.name.0);
        let marks = mark_size(self.mark);
        let tests = fields_size(self.tests.as_slice());
        let thens = fields_size(self.then_actions.as_slice());
        let elses = fields_size(self.else_actions.as_slice());
        name + marks + tests + thens + elses
    }

    fn put_body(&self, output: &mut Output) {
        output.put_field(StatementField::Name, &self.name.0);
        output.put_fields(StatementField::Mark, spelled(self.mark).as_slice());
        output.put_fields(StatementField::Test, self.tests.as_slice());
        output.put_fields(StatementField::ThenAction, self.then_actions.as_slice());
        output.put_fields(StatementField::ElseAction, self.else_actions.as_slice());
    }
}

impl Body for Plan {
    ghost body = { λ p. p.number ∷ map name_number (held p.names) };

    fn size(&self) -> usize {
        1 + self.names.len()
    }

    fn put_body(&self, output: &mut Output) {
        output.put(&[self.number]);
        output.put_names(self.names.as_slice());
    }
}
