// Whether the tests of a statement hold. Nothing here can set a place: places are only read.
ghost use Rattle.std.specs.Prelude.{◌≡◌};
ghost use Rattle.rules.specs.Testing.{in_state, compared_as, compares, seen, truth as truth_of, joined as joined_to, holds as holds_in};
ghost use Rattle.memory.specs.Flags.{places_of};
ghost use Rattle.scanning.specs.EnabledNames.{is_there};

use crate::frame::Frame;
use crate::names::EnabledNames;
use crate::places::{is_place_on, is_some_on};
use cells::store::CellStore;
use memory::flags::FlagTable;
use tables::number::Entry;
use tables::place::State;
use tables::test::{Comparison, Join, JoinedTest, Test};
use tables::time::Tenths;

// What an entry is compared as: the seconds of a ring timer in tenths, any other entry as it is.
fn compared_value(entry: Entry) -> u16
    ensures { result ≡ compared_as entry }
{
    match entry {
        Entry::Timed(seconds) => Tenths::from(seconds).0,
        Entry::Plain(value) => value,
    }
}

// IS, !=, > and <, of a frame's number and an entry.
fn compare(comparison: Comparison, number: u16, entry: u16) -> bool
    ensures { result ≡ compares comparison number entry }
{
    match comparison {
        Comparison::Is => number == entry,
        Comparison::IsNot => number != entry,
        Comparison::Greater => number > entry,
        Comparison::Less => number < entry,
    }
}

// Whether what is ON, or not, is in a state.
fn is_in(state: State, on: bool) -> bool
    ensures { result ≡ in_state state on }
{
    State::from(on) == state
}

// What one test answers.
#[tactic(auto, unfolding(rules::specs::Testing::truth))]
fn truth<S: CellStore>(
    test: Test,
    frame: &Frame,
    enabled: &EnabledNames,
    store: &S,
    flags: &FlagTable,
) -> bool
    ensures { result ≡ truth_of (seen frame.now (is_there enabled.now) (places_of (S.cells store.now) flags.now)) test }
{
    match test {
        Test::PlaceIs(place, state) => is_in(state, is_place_on(store, flags, place)),
        Test::MemberIs(member, state) => is_in(state, is_some_on(store, flags, member.cells())),
        Test::StatementIs(name, state) => is_in(state, enabled.contains(name)),
        Test::NumberIs(number, comparison, entry) => compare(
            comparison,
            frame.number(number),
            compared_value(entry),
        ),
    }
}

// A test joined to what those above it gave.
fn joined(join: Join, above: bool, here: bool) -> bool
    ensures { result ≡ joined_to join above here }
{
    match join {
        Join::First => here,
        Join::And => above && here,
        Join::Or => above || here,
    }
}

/// Whether tests hold, joined from the top, on a frame's numbers, on the enabled names, and on cells and flags as they stand.
pub fn holds<S: CellStore>(
    tests: &[JoinedTest],
    frame: &Frame,
    enabled: &EnabledNames,
    store: &S,
    flags: &FlagTable,
) -> bool
    ensures { result ≡ holds_in (seen frame.now (is_there enabled.now) (places_of (S.cells store.now) flags.now)) tests.now }
{
    tests.iter().fold(
        false,
        |above, t| joined(t.join, above, truth(t.test, frame, enabled, store, flags)),
    )
}
