// Whether the lines of two lists name a place in common.
ghost use Rattle.std.specs.Prelude.{Decides};
ghost use Rattle.tables.specs.Lists.{Among};
ghost use Rattle.tables.specs.Spans.{span_cells};
ghost use Rattle.rules.specs.Touching.{named_by};
ghost use Rattle.touching.specs.Sharing.{Share};

use crate::line_places::LinePlaces;
use crate::names_places::NamesPlaces;
use tables::place::Place;
use tables::span::CellSpan;

// Whether some line names this place.
fn some_names<L: NamesPlaces>(lines: &[L], place: Place) -> bool
    ensures { Decides result (Among place (named_by L.NamesPlaces.named lines.now)) }
{
    lines.iter().any(|line| line.names(place))
}

// Whether some line names one of these cells.
fn some_names_one_of<L: NamesPlaces>(lines: &[L], cells: CellSpan) -> bool
    ensures { Decides result (Share (span_cells cells) (named_by L.NamesPlaces.named lines.now)) }
{
    cells.into_iter().any(|cell| some_names(lines, cell))
}

// Whether this line names a place that one of the others names.
fn line_shares<X: NamesPlaces, Y: NamesPlaces>(line: &X, others: &[Y]) -> bool
    ensures { Decides result (Share (X.NamesPlaces.named line.now) (named_by Y.NamesPlaces.named others.now)) }
{
    match line.places() {
        LinePlaces::Nothing => false,
        LinePlaces::One(place) => some_names(others, place),
        LinePlaces::Cells(span) => some_names_one_of(others, span),
    }
}

/// Whether some place is named by a line of each list.
pub fn share_place<X: NamesPlaces, Y: NamesPlaces>(xs: &[X], ys: &[Y]) -> bool
    ensures { Decides result (Share (named_by X.NamesPlaces.named xs.now) (named_by Y.NamesPlaces.named ys.now)) }
{
    xs.iter().any(|line| line_shares(line, ys))
}
