// Lines of a statement, and the places that they name.
ghost use Rattle.std.specs.Prelude.{◌≡◌, List, Decides};
ghost use Rattle.tables.specs.declared.place.Place.{Place};
ghost use Rattle.tables.specs.Lists.{Among};
ghost use Rattle.rules.specs.Touching.{joined_test_places, action_places};
ghost use Rattle.touching.specs.Named.{places_in};

use crate::line_places::LinePlaces;
use tables::action::Action;
use tables::place::Place;
use tables::test::{JoinedTest, Test};

/// A line that may name places.
pub trait NamesPlaces {
    // The places that it names, in order.
    ghost named: { Self → List Place };

    /// The places that it names.
    fn places(&self) -> LinePlaces
        ensures { places_in result ≡ named self.now };

    /// Whether it names this place.
    fn names(&self, place: Place) -> bool
        ensures { Decides result (Among place (named self.now)) }
    {
        self.places().includes(place)
    }
}

impl NamesPlaces for JoinedTest {
    ghost named = { joined_test_places };

    fn places(&self) -> LinePlaces {
        match self.test {
            Test::PlaceIs(place, _) => LinePlaces::One(place),
            Test::MemberIs(member, _) => LinePlaces::Cells(member.cells()),
            Test::StatementIs(..) | Test::NumberIs(..) => LinePlaces::Nothing,
        }
    }
}

impl NamesPlaces for Action {
    ghost named = { action_places };

    fn places(&self) -> LinePlaces {
        match *self {
            Action::SetPlace(place, _) => LinePlaces::One(place),
            Action::SetMember(member, _) => LinePlaces::Cells(member.cells()),
            Action::Delay(_) => LinePlaces::Nothing,
        }
    }
}
