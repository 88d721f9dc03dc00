// The controller's cells as a store keeps them: what every store must promise, and two stores. A store is 1,344 cells, each ON
// or OFF, and four operations on them. The crate knows nothing of what cells stand for, of statements, or of scans.
#![tactic(auto)]

mod bits;
pub mod forcing;
pub mod layout;
mod masks;
pub mod packed;
pub mod readings;
pub mod store;
