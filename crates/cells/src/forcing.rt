// The forcing store, for a controller whose own cells must not be overwritten: a write overrides a cell by the masks, and leaves
// the controller's own.
ghost use Rattle.std.specs.Prelude.{◌≡◌};
ghost use Rattle.cells.specs.Cells.{cleared, taken, held, written, all_cells};
ghost use Rattle.cells.specs.Masks.{forced_state};
ghost use Rattle.cells.specs.Forcing.{forcing_cells, Emptied, Taken, Seen, Overridden};
ghost use Rattle.cells.specs.Tabulated.{length_tabulated};

use crate::layout::Position;
use crate::masks::Masks;
use crate::packed::PackedImage;
use crate::store::CellStore;
use tables::place::{Buffer, State};

/// The controller's cells as they were taken, under two masks: the cells that are forced ON, and those that are forced OFF. No
/// cell is in both.
#[derive(Drop)]
pub struct ForcingStore {
    pub(crate) controller: PackedImage,
    pub(crate) masks: Masks,
}

impl ForcingStore {
    /// A store with every cell OFF and none forced.
    pub fn new() -> Self
        ensures { Emptied result }
    {
        ForcingStore {
            controller: PackedImage::new(),
            masks: Masks::new(),
        }
    }

    /// Whether a cell is forced, and to what: what writes have overridden since the last frame was taken.
    pub fn forced(&self, buffer: Buffer, code: u16) -> Option<State>
        ensures { result ≡ forced_state self.now.masks buffer code }
    {
        Position::of(buffer, code).and_then(|at| self.masks.forced(at))
    }
}

impl CellStore for ForcingStore {
    ghost cells = { forcing_cells };

    ghost whole = { λ s. length_tabulated all_cells _ };

    fn clear(&mut self)
        ensures meaning { forcing_cells self.new ≡ cleared }
        ensures masks { Emptied self.new }
    {
        self.controller.clear();
        self.masks.clear();
    }

    fn take(&mut self, bytes: &[u8])
        ensures meaning { forcing_cells self.new ≡ taken (forcing_cells self.old) bytes.now }
        ensures masks { Taken self.old bytes.now self.new }
    {
        self.controller.take(bytes);
        self.masks.take(bytes);
    }

    fn read(&self, buffer: Buffer, code: u16) -> State
        ensures meaning { result ≡ held (forcing_cells self.now) buffer code }
        ensures masks { Seen self.now buffer code result }
    {
        self.forced(buffer, code)
            .unwrap_or(self.controller.read(buffer, code))
    }

    fn write(&mut self, buffer: Buffer, code: u16, state: State)
        ensures meaning { forcing_cells self.new ≡ written (forcing_cells self.old) buffer code state }
        ensures masks { Overridden self.old buffer code state self.new }
    {
        if let Some(at) = Position::of(buffer, code) {
            self.masks.force(at, state);
        }
    }
}
