// The packed image: the cell bytes themselves.
ghost use Rattle.std.specs.Prelude.{◌≡◌, false, slice_index_or, slice_set};
ghost use Rattle.cells.specs.Cells.{image, cleared, all_cells, is_on, state_when};
ghost use Rattle.cells.specs.Tabulated.{length_tabulated};

use crate::bits::{put, test};
use crate::layout::{CELL_BYTES, Position};
use crate::store::CellStore;
use tables::place::{Buffer, State};

/// The 168 cell bytes, in the order of a frame.
#[derive(Drop)]
pub struct PackedImage {
    bytes: [u8; CELL_BYTES],
}

impl PackedImage {
    /// An image with every cell OFF.
    pub fn new() -> Self
        ensures { image result.bytes ≡ cleared }
    {
        PackedImage {
            bytes: [0; CELL_BYTES],
        }
    }

    // The state of the cell at a position.
    #[tactic(auto, using(crate::proofs::Tables::get_or_tabulated))]
    pub(crate) fn get(&self, at: Position) -> State
        ensures { result ≡ state_when (slice_index_or (image self.now.bytes) at false) }
    {
        let index = at.index();
        State::from(test(self.bytes[index / 8], (index % 8) as u8))
    }

    // Sets the cell at a position, and no other.
    pub(crate) fn set(&mut self, at: Position, state: State)
        ensures { image self.new.bytes ≡ slice_set (image self.old.bytes) at (is_on state) }
    {
        let index = at.index();
        let byte = self.bytes[index / 8];
        self.bytes[index / 8] = put(byte, (index % 8) as u8, bool::from(state));
    }
}

impl CellStore for PackedImage {
    ghost cells = { λ s. image s.bytes };

    ghost whole = { λ s. length_tabulated all_cells _ };

    fn clear(&mut self) {
        *self = PackedImage::new();
    }

    fn take(&mut self, bytes: &[u8]) {
        if bytes.len() == CELL_BYTES {
            self.bytes.copy_from_slice(bytes);
        }
    }

    fn read(&self, buffer: Buffer, code: u16) -> State {
        match Position::of(buffer, code) {
            Some(at) => self.get(at),
            None => State::Off,
        }
    }

    fn write(&mut self, buffer: Buffer, code: u16, state: State) {
        if let Some(at) = Position::of(buffer, code) {
            self.set(at, state);
        }
    }
}
