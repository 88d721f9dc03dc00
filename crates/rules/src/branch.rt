// The branches of a statement.

// Not an option of two branches: each match has three arms either way, and the rules name all three.
/// What a wait record holds: the branch that its statement took last, or neither where the statement was not enabled.
#[derive(Clone, Copy, PartialEq, Eq)]
pub enum Branch {
    Neither,
    Then,
    Else,
}
