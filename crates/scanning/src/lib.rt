// One scan over any cell store: which statements are enabled, whether tests hold, what actions write, and the whole table from
// the top. Its contracts cite the rules; it knows tables, stores, flags and wait records, and nothing of documents, of reorders
// or of the processor that owns the parts. Nothing in it allocates.
#![tactic(auto)]

pub mod acting;
pub mod enabling;
pub mod frame;
pub mod left;
pub mod names;
pub mod places;
pub mod scan;
pub mod testing;
pub mod turn;
