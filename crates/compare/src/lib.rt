// Two processors side by side: a test bench or a table editor gives both the same steps and learns the first that shows a
// difference. Its contract carries the result about rearranged tables, of the two processors themselves. It knows the processor
// and its rules, and allocates nothing.
#![tactic(auto)]

pub mod bench;
pub(crate) mod cells_alike;
pub(crate) mod difference;
pub mod kind;
pub(crate) mod last_frame;
pub(crate) mod side;
pub mod step;
