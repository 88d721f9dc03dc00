// Which cells a family and a member name.
ghost use Rattle.std.specs.Prelude.{◌≡◌, suc, ◌+◌, ◌*◌, ◌<◌, [], ◌∷◌, map, if◌then◌else◌, Some, None, nat_lt};
ghost use Rattle.std.specs.List.{range_with_len};
ghost use Rattle.tables.specs.Families.{cell_in, cells_named, member_cell};
ghost use Rattle.tables.specs.Spans.{span_cell, span_cells};

use crate::family::{Layout, Member};
use crate::place::{Buffer, Place};
use crate::span::CellSpan;

impl Buffer {
    /// The cell of this code.
    pub fn cell(self, code: u16) -> Place
        ensures { result ≡ cell_in self code }
    {
        match self {
            Buffer::Input => Place::InputCell(code),
            Buffer::Output => Place::OutputCell(code),
        }
    }
}

impl CellSpan {
    /// How many cells there are.
    pub fn count(self) -> u8
        ensures { result ≡ self.count }
    {
        self.count
    }

    /// One of the cells, counted from 0.
    pub fn cell(self, k: u8) -> Option<Place>
        ensures { result ≡ (if nat_lt k self.count then Some (span_cell self k) else None) }
    {
        if k < self.count {
            Some(self.nth(k))
        } else {
            None
        }
    }

    // The same, where there are more than `k` cells.
    pub(crate) fn nth(self, k: u8) -> Place
        requires { k < self.count }
        ensures { result ≡ span_cell self k }
    {
        self.buffer.cell(self.first + self.step * u16::from(k))
    }
}

impl Layout {
    // Each of the family's cells.
    fn all_cells(self) -> CellSpan
        requires { self.first + self.step * 256 < 65536 }
        ensures { span_cells result ≡ map (member_cell self) (range_with_len 1 self.members) }
    {
        CellSpan {
            buffer: self.buffer,
            first: self.first,
            step: self.step,
            count: self.members,
        }
    }

    // The cell of one member, counted from 0.
    fn one_cell(self, k: u8) -> CellSpan
        requires { self.first + self.step * 512 < 65536 }
        ensures { span_cells result ≡ member_cell self (suc k) ∷ [] }
    {
        CellSpan {
            buffer: self.buffer,
            first: self.first + self.step * u16::from(k),
            step: self.step,
            count: 1,
        }
    }
}

impl Member {
    /// The cells that a line with this member names: its own, or each of the family's for 0.
    pub fn cells(self) -> CellSpan
        ensures { span_cells result ≡ cells_named self.family self.number }
    {
        if self.number == 0 {
            return self.family.layout().all_cells();
        }
        self.family.layout().one_cell(self.number - 1)
    }
}
