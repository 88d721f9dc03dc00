// Reading table documents: bytes in, a table or a refusal out. It knows the format and the words of a table, and nothing of
// cells, scans or processors.
#![tactic(auto)]

pub mod document;
pub(crate) mod draft;
pub(crate) mod field;
pub(crate) mod fields;
pub(crate) mod lines;
pub(crate) mod parts;
pub(crate) mod plan;
pub mod promises;
pub(crate) mod statement;
