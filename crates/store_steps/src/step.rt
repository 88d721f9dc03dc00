// One step over a store.
ghost use Rattle.std.specs.Prelude.{◌≡◌};
ghost use Rattle.store_steps.specs.Steps.{cells_after, step_answer};

use crate::snapshot::snapshot;
use cells::layout::CELLS;
use cells::store::CellStore;
use tables::place::{Buffer, State};

/// A step over a store, beside a frame of cell bytes.
// Not a closure: a caller writes down a list of steps, does it in several stores, and prints it.
#[derive(Clone, Copy)]
pub enum Step {
    Clear,
    /// Takes the frame's bytes, from the first, so many as there are up to this.
    Take(usize),
    Read(Buffer, u16),
    Write(Buffer, u16, State),
}

/// What a step answered, and whether each cell was ON after it.
#[derive(Clone, Copy)]
pub struct Outcome {
    pub answer: Option<State>,
    pub cells: [bool; CELLS],
}

// Does a step, and says what it answers.
fn apply<S: CellStore>(store: &mut S, frame: &[u8], step: Step) -> Option<State>
    ensures meaning { S.cells store.new ≡ cells_after (S.cells store.old) frame.now step }
    ensures answer { result ≡ step_answer (S.cells store.old) step }
{
    match step {
        Step::Clear => store.clear(),
        Step::Take(count) => store.take(&frame[..count.min(frame.len())]),
        Step::Read(buffer, code) => return Some(store.read(buffer, code)),
        Step::Write(buffer, code, state) => store.write(buffer, code, state),
    }
    None
}

/// Does a step, and pictures the cells after it. Whatever the store, the same cells and the same step give the same outcome.
pub fn perform<S: CellStore>(store: &mut S, frame: &[u8], step: Step) -> Outcome
    ensures meaning { S.cells store.new ≡ cells_after (S.cells store.old) frame.now step }
    ensures pictured { result.cells ≡ cells_after (S.cells store.old) frame.now step }
    ensures answer { result.answer ≡ step_answer (S.cells store.old) step }
{
    let answer = apply(store, frame, step);
    Outcome {
        answer,
        cells: snapshot(store),
    }
}
