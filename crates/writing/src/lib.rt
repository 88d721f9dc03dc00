// Writing tables out: a table or its order in, bytes in a caller's buffer out. It knows the format and the words of a table, and
// nothing of cells, scans or processors. It never allocates.
#![tactic(auto)]

pub(crate) mod body;
pub(crate) mod lines;
pub(crate) mod output;
pub mod promises;
pub(crate) mod statement;
pub mod table;
