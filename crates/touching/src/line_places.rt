// The places that one line of a statement names.
ghost use Rattle.std.specs.Prelude.{◌≡◌, length, Decides};
ghost use Rattle.std.specs.List.{slice_get};
ghost use Rattle.tables.specs.Lists.{Among};
ghost use Rattle.tables.specs.Spans.{span_cells};
ghost use Rattle.touching.specs.Named.{places_in};

use tables::place::Place;
use tables::span::CellSpan;

// Not an option of the last two: each match would take two steps to the same three arms.
/// What a line names: no place, one, or the cells of a family or of one of its members.
#[derive(Clone, Copy)]
pub enum LinePlaces {
    Nothing,
    One(Place),
    Cells(CellSpan),
}

// Whether a span has this cell.
fn has_cell(span: CellSpan, cell: Place) -> bool
    ensures { Decides result (Among cell (span_cells span)) }
{
    span.into_iter().any(|other| other == cell)
}

impl LinePlaces {
    /// How many places there are.
    pub fn count(self) -> u8
        ensures { result ≡ length (places_in self) }
    {
        match self {
            LinePlaces::Nothing => 0,
            LinePlaces::One(_) => 1,
            LinePlaces::Cells(span) => span.count(),
        }
    }

    /// One of the places, counted from 0.
    pub fn place(self, k: u8) -> Option<Place>
        ensures { result ≡ slice_get (places_in self) k }
    {
        match self {
            LinePlaces::Nothing => None,
            LinePlaces::One(place) => (k == 0).then_some(place),
            LinePlaces::Cells(span) => span.cell(k),
        }
    }

    /// Whether a place is one of them.
    pub fn includes(self, place: Place) -> bool
        ensures { Decides result (Among place (places_in self)) }
    {
        match self {
            LinePlaces::Nothing => false,
            LinePlaces::One(own) => own == place,
            LinePlaces::Cells(span) => has_cell(span, place),
        }
    }
}
