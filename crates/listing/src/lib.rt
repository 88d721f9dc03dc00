// A table in the words of an engineer: what each family and number is called, and a statement or a plan line by line. It knows
// the words of a table, and nothing of bytes and documents, of cells and frames, or of what a scan does.
#![tactic(auto)]

pub mod action;
pub mod family;
pub mod in_words;
pub mod number;
pub mod place;
pub mod plan;
pub mod statement;
pub mod test;
pub mod words;
