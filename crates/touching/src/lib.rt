// Whether two statements touch: one of them sets a place that the other sets or tests. What touching means is said in the
// rules; here it is decided by code. The crate knows the words of a table and what a line of it names; it knows nothing of
// scans, of marks or of the order of a table.
#![tactic(auto)]

pub mod each_place;
pub mod line_places;
pub mod names_places;
pub mod sharing;
pub mod touch;
