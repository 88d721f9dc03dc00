// An action plan: while the frame shows its number, the statements that it lists and that follow the plan are enabled.
use crate::limits::MAX_NAMES;
use crate::statement::Name;
use bounded::BoundedList;

/// A plan's number and the names that it lists.
#[derive(Clone, Copy)]
pub struct Plan {
    pub number: u8,
    pub names: BoundedList<Name, MAX_NAMES>,
}
