// Whether the cells of two processors are alike: each holds what its own run's last accepted frame showed, or the same in both.
ghost use Rattle.std.specs.Prelude.{◌≡◌, ◌↔◌, false, IsTrue, IsSomeAnd, slice_index_or};
ghost use Rattle.cells.specs.Cells.{image};
ghost use Rattle.compare.specs.Frames.{frame_of};
ghost use Rattle.compare.specs.Sides.{state_of};
ghost use Rattle.compare.specs.Differences.{CellsAlike};

use crate::side::Side;
use cells::layout::{CELLS, Position};
use cells::packed::PackedImage;
use cells::store::CellStore;

// Whether two stores hold the same in a cell.
fn is_same<S: CellStore, T: CellStore>(here: &S, there: &T, at: Position) -> bool
    ensures { IsTrue result ↔ (slice_index_or (S.CellStore.cells here.now) at false ≡ slice_index_or (T.CellStore.cells there.now) at false) }
{
    here.state_at(at) == there.state_at(at)
}

// Whether a store holds in a cell what was shown of it.
fn is_own<S: CellStore>(store: &S, shown: &Option<PackedImage>, at: Position) -> bool
    ensures { IsTrue result ↔ IsSomeAnd shown.now (λ own. slice_index_or (S.cells store.now) at false ≡ slice_index_or (image own.bytes) at false) }
{
    shown.as_ref().is_some_and(|own| is_same(store, own, at))
}

/// Whether every cell is alike in both.
pub(crate) fn are_cells_alike<P: CellStore, Q: CellStore>(first: &Side<P>, second: &Side<Q>) -> bool
    ensures { IsTrue result ↔ CellsAlike (frame_of first.now.last_frame) (frame_of second.now.last_frame)
        (state_of P.CellStore.cells first.now) (state_of Q.CellStore.cells second.now) }
{
    let here = first.processor.store();
    let there = second.processor.store();
    let own_here = first.last_frame.shown();
    let own_there = second.last_frame.shown();
    (0..CELLS).all(|index| {
        let at = Position::nth(index);
        is_same(here, there, at) || is_own(here, &own_here, at) && is_own(there, &own_there, at)
    })
}
