// The cells of a span, one after another.
ghost use Rattle.std.specs.Prelude.{◌≡◌};
ghost use Rattle.std.specs.Iterator.{YieldsFirst, item_count};
ghost use Rattle.std.specs.Iterator.Runs.{YieldsInOrder};
ghost use Rattle.tables.specs.declared.place.Place.{Place};
ghost use Rattle.tables.specs.Spans.{span_cells};

use crate::place::Place;
use crate::span::CellSpan;
use std::marker::Model;

// A count, and not the span's cells as a `Range`: the model shows the list that is left from here on.
/// The cells of a span that are still to come.
#[derive(Drop)]
pub struct EachCell {
    span: CellSpan,
    passed: u8,
}

impl Model for EachCell {
    ghost use Rattle.std.specs.Prelude.{List};
    ghost use Rattle.tables.specs.declared.place.Place.{Place};

    ghost Value = { List Place };

    ghost use Rattle.tables.specs.EachCell.{cells_left};

    ghost view = { cells_left };
}

impl IntoIterator for CellSpan {
    type Item = Place;

    type IntoIter = EachCell;

    ghost into_iter_gives = { λ span each. (each ≡ span_cells span)
        × YieldsInOrder (YieldsFirst {A = Place} (λ rest. rest)) (λ rest. rest) };

    fn into_iter(self) -> EachCell {
        EachCell {
            span: self,
            passed: 0,
        }
    }
}

impl Iterator for EachCell {
    type Item = Place;

    ghost next_gives = { YieldsFirst (λ rest. rest) };

    ghost remaining = { item_count (λ rest. rest) };

    fn next(&mut self) -> Option<Place> {
        if self.passed >= self.span.count() {
            return None;
        }
        let place = self.span.nth(self.passed);
        self.passed += 1;
        Some(place)
    }
}
