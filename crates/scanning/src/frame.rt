// A frame: what the controller shows in a scan.
ghost use Rattle.std.specs.Prelude.{◌≡◌, length, take};
ghost use Rattle.cells.specs.Cells.{cell_bytes};
ghost use Rattle.rules.specs.Frames.{number_shown};

use cells::layout::CELL_BYTES;
use std::marker::Model;
use tables::number::Number;
use tables::refusal::Refusal;

/// The bytes of a frame: 168 of cells, then 176 numbers of two bytes.
pub const FRAME_BYTES: usize = 520;

/// The bytes of one frame.
#[derive(Drop)]
pub struct Frame<'a> {
    bytes: &'a [u8],
}

impl<'a> Model for Frame<'a> {
    ghost use Rattle.std.specs.Prelude.{◌≡◌, ℕ, List, length};
    ghost use Rattle.rules.specs.Frames.{frame_bytes};

    ghost Value = { List ℕ };

    ghost view = { λ frame. frame.bytes.now };

    ghost invariant = { λ frame. length frame.bytes.now ≡ frame_bytes };
}

impl<'a> TryFrom<&'a [u8]> for Frame<'a> {
    ghost use Rattle.std.specs.Prelude.{◌≡◌, Ok, Err, if◌then◌else◌};
    ghost use Rattle.tables.specs.declared.refusal.Refusal.TheVariants.{NotAFrame};
    ghost use Rattle.rules.specs.Frames.{is_frame};

    type Error = Refusal;

    ghost try_from_gives = { λ bytes result. result ≡ (if is_frame bytes.now then Ok bytes.now else Err NotAFrame) };

    fn try_from(bytes: &'a [u8]) -> Result<Frame<'a>, Refusal> {
        if bytes.len() == FRAME_BYTES {
            Ok(Frame { bytes })
        } else {
            Err(Refusal::NotAFrame)
        }
    }
}

impl<'a> Frame<'a> {
    /// The bytes of its cells, in the order of a store's.
    pub fn cell_bytes(&self) -> &'a [u8]
        ensures value { result.now ≡ take cell_bytes self.now }
        ensures size { length result.now ≡ cell_bytes }
    {
        &self.bytes[..CELL_BYTES]
    }

    /// A number that it shows, the high byte first; one whose code is past the frame's end is 0.
    pub fn number(&self, number: Number) -> u16
        ensures { result ≡ number_shown self.now number }
    {
        let at = CELL_BYTES + 2 * usize::from(u16::from(number));
        match self.bytes.get(at..at + 2) {
            Some(bytes) => u16::from_be_bytes([bytes[0], bytes[1]]),
            None => 0,
        }
    }
}
