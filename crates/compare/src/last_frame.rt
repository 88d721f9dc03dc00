// The frame that a run accepted last.
ghost use Rattle.std.specs.Prelude.{◌≡◌, length, None, option_map};
ghost use Rattle.std.specs.Option.{ForSome};
ghost use Rattle.cells.specs.Cells.{image};
ghost use Rattle.rules.specs.Frames.{frame_bytes, cells_shown};
ghost use Rattle.rules.specs.Runs.{last_frame};
ghost use Rattle.compare.specs.Steps.{call_meant};

use crate::step::Call;
use cells::layout::CELL_BYTES;
use cells::packed::PackedImage;
use cells::store::CellStore;
use scanning::frame::FRAME_BYTES;

// The bytes of a frame, not a `Frame`: a struct that holds one beside a `&mut` cannot be given by value.
/// The frame that a run accepted last, if it accepted one.
#[derive(Clone, Copy)]
pub(crate) struct LastFrame<'a> {
    frame: Option<&'a [u8]>,
    ghost whole: { ForSome frame (λ f. length f.now ≡ frame_bytes) },
}

impl<'a> LastFrame<'a> {
    ghost use Rattle.compare.specs.Frames.{frame_of};

    // No frame yet.
    pub(crate) fn none() -> Self
        ensures { frame_of result ≡ None }
    {
        LastFrame { frame: None }
    }

    // After a call of the run.
    pub(crate) fn note(&mut self, call: Call<&'a [u8]>)
        ensures { frame_of self.new ≡ last_frame (frame_of self.old) (call_meant call.entry) }
    {
        if let Call::Scan(frame) = call
            && frame.len() == FRAME_BYTES
        {
            *self = LastFrame { frame: Some(frame) };
        }
    }

    // The cells that it showed, if there is one.
    pub(crate) fn shown(&self) -> Option<PackedImage>
        ensures { option_map (λ p. image p.bytes) result ≡ option_map cells_shown (frame_of self.now) }
    {
        self.frame.map(cells_of)
    }
}

// The cells that a frame shows.
fn cells_of(frame: &[u8]) -> PackedImage
    requires { length frame.now ≡ frame_bytes }
    ensures { image result.bytes ≡ cells_shown frame.now }
{
    let (cells, _) = frame.split_at(CELL_BYTES);
    let mut image = PackedImage::new();
    image.take(cells);
    image
}
