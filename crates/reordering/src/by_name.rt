// Where the statement of a name stands.
ghost use Rattle.reordering.specs.Places.{Found};

use tables::statement::{Name, Statement};

/// The place, counted from 0, of the first statement of a name; none if no statement has that name.
pub fn find(statements: &[Statement], name: Name) -> Option<usize>
    ensures { Found statements.now name.0 result }
{
    // A plain loop: with `position` a search that was repeated took more than twice as long.
    for (at, statement) in statements.iter().enumerate() {
        if statement.name == name {
            return Some(at);
        }
    }
    None
}
