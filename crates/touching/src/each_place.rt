// The places of a line, one after another.
ghost use Rattle.std.specs.Prelude.{◌≡◌};
ghost use Rattle.std.specs.Iterator.{YieldsFirst, item_count};
ghost use Rattle.touching.specs.Named.{places_in};
ghost use Rattle.touching.specs.EachPlace.{places_left};

use crate::line_places::LinePlaces;
use tables::each_cell::EachCell;
use tables::place::Place;

/// The places of a line that are still to come.
#[derive(Drop)]
pub enum EachPlace {
    One(Option<Place>),
    Cells(EachCell),
}

impl IntoIterator for LinePlaces {
    type Item = Place;

    type IntoIter = EachPlace;

    ghost into_iter_gives = { λ line each. places_left each ≡ places_in line };

    fn into_iter(self) -> EachPlace {
        match self {
            LinePlaces::Nothing => EachPlace::One(None),
            LinePlaces::One(place) => EachPlace::One(Some(place)),
            LinePlaces::Cells(span) => EachPlace::Cells(span.into_iter()),
        }
    }
}

impl Iterator for EachPlace {
    type Item = Place;

    ghost next_gives = { YieldsFirst places_left };

    ghost remaining = { item_count places_left };

    fn next(&mut self) -> Option<Place> {
        match self {
            EachPlace::One(place) => place.take(),
            EachPlace::Cells(cells) => cells.next(),
        }
    }
}
