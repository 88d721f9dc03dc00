// Cells by their code, and flags. The label is a fixed text, as in `words`.
ghost use Rattle.std.specs.Prelude.{◌≡◌};
ghost use Rattle.listing.specs.Lines.{place_label, place_text};

use crate::in_words::Worded;
use std::fmt;
use tables::place::Place;

/// What a place is, without its code.
pub fn place_label(place: Place) -> &'static str
    ensures { result.now ≡ place_label place }
{
    match place {
        Place::InputCell(_) => "CIB",
        Place::OutputCell(_) => "COB",
        Place::Flag(_) => "LOGIC FLAG",
    }
}

impl Worded for Place {
    ghost worded = { place_text };

    fn write_words<W: fmt::Write>(&self, f: &mut fmt::Formatter<W>) -> fmt::Result {
        write!(f, "{} {}", place_label(*self), self.code())
    }
}
