// The processor: a table of statements over any cell store, with its flags and wait records, and the calls that a controller, a
// panel and a table editor make. Each call's contract is its rule, between the state before it, its answer and the state after
// it, taken or refused. Everything lies in the processor's own memory; nothing in it allocates.
#![tactic(auto)]

pub mod changing;
pub mod loading;
pub mod parts;
pub mod questions;
pub mod scan;
