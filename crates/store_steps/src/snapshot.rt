// A picture of a store's cells, made by reading each of them.
ghost use Rattle.std.specs.Prelude.{◌≡◌, ◌<◌, false, slice_index_or};
ghost use Rattle.cells.specs.Cells.{all_cells};

use cells::layout::{CELLS, Position};
use cells::store::CellStore;
use std::array;

// Whether the cell with so many before it is ON.
fn is_on<S: CellStore>(store: &S, index: usize) -> bool
    requires { index < all_cells }
    ensures { result ≡ slice_index_or (S.cells store.now) index false }
{
    bool::from(store.state_at(Position::nth(index)))
}

/// Whether each cell is ON: those of the input buffer by their codes, then those of the output buffer.
pub fn snapshot<S: CellStore>(store: &S) -> [bool; CELLS]
    ensures { result ≡ S.cells store.now }
{
    array::from_fn(|index| is_on(store, index))
}
