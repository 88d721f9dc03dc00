// How many cells there are, and where each stands among them: the input buffer's first, then the output buffer's.
ghost use Rattle.std.specs.Prelude.{◌≡◌, ℕ, ◌<◌};
ghost use Rattle.cells.specs.Cells.{all_cells, cell_position};

use std::marker::Model;
use tables::limits::{INPUT_CELLS, OUTPUT_CELLS};
use tables::place::Buffer;

/// The cells of both buffers: 1,344.
pub const CELLS: usize = INPUT_CELLS as usize + OUTPUT_CELLS as usize;

/// The bytes that hold them, eight cells to a byte: 168.
pub const CELL_BYTES: usize = CELLS / 8;

/// Where one of the cells stands among all of them.
#[derive(Clone, Copy, PartialEq, Eq)]
pub struct Position {
    index: u16,
}

impl Model for Position {
    ghost Value = { ℕ };

    ghost view = { λ position. position.index };

    ghost invariant = { λ position. position.index < all_cells };

    ghost inverse = { λ index. record { index = index } };
}

impl Position {
    /// Where the cell of a code stands, or none for a code past its buffer's end.
    pub fn of(buffer: Buffer, code: u16) -> Option<Position>
        ensures { result ≡ cell_position buffer code }
    {
        match buffer {
            Buffer::Input if code < INPUT_CELLS => Some(Position { index: code }),
            Buffer::Output if code < OUTPUT_CELLS => Some(Position {
                index: INPUT_CELLS + code,
            }),
            _ => None,
        }
    }

    /// The position that has so many cells before it.
    pub fn nth(index: usize) -> Position
        requires { index < all_cells }
        ensures { result ≡ index }
    {
        Position {
            index: index as u16,
        }
    }

    /// How many cells stand before it.
    pub fn index(self) -> usize
        ensures value { result ≡ self }
        ensures inside { result < all_cells }
    {
        usize::from(self.index)
    }

    /// The buffer and the code of the cell there.
    pub fn cell(self) -> (Buffer, u16)
        ensures { cell_position result.0 result.1 ≡ Some self }
    {
        if self.index < INPUT_CELLS {
            (Buffer::Input, self.index)
        } else {
            (Buffer::Output, self.index - INPUT_CELLS)
        }
    }
}
