// Where the statement of a name stands in a table, and, in the specifications alone, what the search for the least pair that an
// order inverts looks for. The crate knows tables and which statements touch; it knows nothing of documents, of cell stores or
// of scans. Nothing in it allocates.
#![tactic(auto)]

pub mod by_name;
