// The words of a table of statements: cells and flags, families and members, numbers and their entries, tests and actions,
// statements, action plans, and the refusals that every call may answer. It knows nothing of bytes and documents, of cell
// stores, or of what a scan does.
#![tactic(auto)]

pub mod action;
pub mod cells;
pub mod code;
pub mod codes;
pub mod each_cell;
pub mod family;
pub mod limits;
pub mod named;
pub mod number;
pub mod place;
pub mod plan;
pub mod refusal;
pub mod span;
pub mod statement;
pub mod table;
pub mod test;
pub mod time;
