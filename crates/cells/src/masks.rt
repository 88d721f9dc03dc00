// The two masks of a forcing store.
ghost use Rattle.std.specs.Prelude.{◌≡◌, false, slice_index_or, slice_set};
ghost use Rattle.cells.specs.Cells.{cleared, image, is_on};
ghost use Rattle.cells.specs.Overlays.{Apart, mask_taken, forced_to, opposite_of};

use crate::layout::{CELL_BYTES, Position};
use crate::packed::PackedImage;
use crate::store::CellStore;
use tables::place::State;

// Two images, at two bits a cell in fixed memory: one array of options would take a byte for each.
/// The cells that are forced ON, and those that are forced OFF. No cell is in both.
#[derive(Drop)]
pub(crate) struct Masks {
    on: PackedImage,
    off: PackedImage,
    ghost apart: { Apart (image on.bytes) (image off.bytes) },
}

impl Masks {
    ghost use Rattle.cells.specs.Masks.{on_mask, off_mask, Masked};

    // Masks without a cell.
    #[tactic(auto, using(crate::proofs::Overlays::cleared_at))]
    pub(crate) fn new() -> Self
        ensures { Masked result cleared cleared }
    {
        Masks {
            on: PackedImage::new(),
            off: PackedImage::new(),
        }
    }

    // Takes every cell out of both masks.
    #[tactic(auto, using(crate::proofs::Overlays::cleared_at))]
    pub(crate) fn clear(&mut self)
        ensures { Masked self.new cleared cleared }
    {
        self.on.clear();
        self.off.clear();
    }

    // What a take does to the masks: bytes of the right length empty them.
    pub(crate) fn take(&mut self, bytes: &[u8])
        ensures { Masked self.new (mask_taken (on_mask self.old) bytes.now) (mask_taken (off_mask self.old) bytes.now) }
    {
        if bytes.len() == CELL_BYTES {
            self.clear();
        }
    }

    // Puts a cell into the mask of its state, and takes it out of the other.
    pub(crate) fn force(&mut self, at: Position, state: State)
        ensures { Masked self.new (slice_set (on_mask self.old) at (is_on state)) (slice_set (off_mask self.old) at (is_on (opposite_of state))) }
    {
        self.on.set(at, state);
        self.off.set(at, !state);
    }

    // Whether a cell is forced, and to what.
    pub(crate) fn forced(&self, at: Position) -> Option<State>
        ensures { result ≡ forced_to (slice_index_or (on_mask self.now) at false) (slice_index_or (off_mask self.now) at false) }
    {
        match (self.on.get(at), self.off.get(at)) {
            (State::On, _) => Some(State::On),
            (State::Off, State::On) => Some(State::Off),
            (State::Off, State::Off) => None,
        }
    }
}
