// What every store of cells must promise. To its users a store is nothing but its 1,344 cells.
ghost use Rattle.std.specs.Prelude.{◌≡◌, Bool, false, List, length, slice_index_or};
ghost use Rattle.cells.specs.Cells.{all_cells, cleared, taken, held, written, state_when};

use crate::layout::Position;
use tables::place::{Buffer, State};

/// A store of the controller's cells.
// A cell's buffer and code stay two parameters: as one they would be put together for each call, and taken apart in each store.
pub trait CellStore {
    // Its cells, true for ON: the input buffer's by their codes, then the output buffer's.
    ghost cells: { Self → List Bool };

    /// Turns every cell OFF.
    fn clear(&mut self)
        ensures meaning { cells self.new ≡ cleared };

    /// Sets every cell from 168 bytes: those of the input buffer, then those of the output buffer, eight cells to a byte, the
    /// lowest code in the lowest bit. Bytes of any other length change nothing.
    fn take(&mut self, bytes: &[u8])
        ensures meaning { cells self.new ≡ taken (cells self.old) bytes.now };

    /// The state of a cell. A code past its buffer's end reads OFF.
    fn read(&self, buffer: Buffer, code: u16) -> State
        ensures meaning { result ≡ held (cells self.now) buffer code };

    /// Sets one cell, and no other. A code past its buffer's end sets none.
    fn write(&mut self, buffer: Buffer, code: u16, state: State)
        ensures meaning { cells self.new ≡ written (cells self.old) buffer code state };

    /// The state of the cell at a position.
    final fn state_at(&self, at: Position) -> State
        ensures { result ≡ state_when (slice_index_or (cells self.now) at false) }
    {
        let (buffer, code) = at.cell();
        self.read(buffer, code)
    }

    // There are 1,344 of them, whatever the store holds.
    ghost whole: { (s : Self) → length (cells s) ≡ all_cells };
}
