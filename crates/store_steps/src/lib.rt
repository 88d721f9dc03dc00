// Single steps over any cell store: what a step does to the cells, what it answers, and a picture of the cells after it. The
// crate knows no particular store.
#![tactic(auto)]

pub mod snapshot;
pub mod step;
