// Differences.

/// What differs: the answers of a step, a flag, a wait record, or a cell that is neither its own frame's in each nor one in both.
#[derive(Clone, Copy, PartialEq, Eq)]
pub enum Kind {
    Answer,
    Flag,
    WaitRecord,
    Cell,
}

/// The step after which there is a difference, counted from 0, and what differs.
#[derive(Clone, Copy, PartialEq, Eq)]
pub struct Difference {
    pub step: usize,
    pub kind: Kind,
}
