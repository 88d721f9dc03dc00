// Cells at even distances, as a family or one of its members names them.
ghost use Rattle.std.specs.Prelude.{◌+◌, ◌*◌, ◌<◌};

use crate::place::Buffer;

/// `count` cells of a buffer, from the code `first` on, `step` codes apart.
#[derive(Clone, Copy)]
pub struct CellSpan {
    pub(crate) buffer: Buffer,
    pub(crate) first: u16,
    pub(crate) step: u16,
    pub(crate) count: u8,
    ghost small: { first + step * 256 < 65536 },
}
