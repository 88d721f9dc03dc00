// What a processor remembers from scan to scan, in memory of its own: the 64 flags, and the wait records of the hundred names.
// It never allocates. It knows places, names, branches and what the rules say of flags and waits; it knows nothing of
// statements, frames, cell stores or the order of a scan.
#![tactic(auto)]

pub mod flags;
pub mod rows;
pub mod wait;
