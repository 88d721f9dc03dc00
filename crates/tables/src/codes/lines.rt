// Tests and actions.
ghost use Rattle.std.specs.Prelude.{◌≡◌};
ghost use Rattle.tables.specs.Decoded.{Decodes};
ghost use Rattle.tables.specs.Lines.{asked, asked_of, number_test, test_codes, test_of, set_of, delay_of, action_codes, action_of};

use crate::action::Action;
use crate::code::{Cases, Coded};
use crate::codes::cases::Kind;
use crate::codes::unknown::UnknownCode;
use crate::family::Member;
use crate::limits::MAX_DELAY;
use crate::number::Number;
use crate::place::{Place, State};
use crate::statement::Name;
use crate::test::{Comparison, Test};
use crate::time::Tenths;

/// A test as a document writes it, without its join.
#[derive(Clone, Copy)]
pub struct TestCodes {
    pub kind: u8,
    pub which: u16,
    pub relation: u8,
    pub entry: u16,
}

/// An action as a document writes it.
#[derive(Clone, Copy)]
pub struct ActionCodes {
    pub kind: u8,
    pub which: u16,
    pub state: u8,
}

impl TryFrom<TestCodes> for Test {
    type Error = UnknownCode;

    ghost try_from_gives = { λ codes r. Decodes (test_of codes) r };

    #[tactic(auto, unfolding(crate::specs::Lines::test_of))]
    fn try_from(codes: TestCodes) -> Result<Test, UnknownCode> {
        let kind = Kind::from_code(codes.kind)?;
        if kind == Kind::FrameNumber {
            return Test::of_number(codes);
        }
        if codes.entry != 0 {
            return Err(UnknownCode);
        }
        let state = State::from_code(codes.relation)?;
        Test::of_state(kind, codes.which, state)
    }
}

impl Test {
    // Kind, which and state stay three here and below: a struct of them would be filled once and taken apart at once.
    // A test that something is ON or OFF.
    fn of_state(kind: Kind, which: u16, state: State) -> Result<Test, UnknownCode>
        ensures { Decodes (asked_of kind which state) result }
    {
        match kind {
            Kind::FamilyMember => Ok(Test::MemberIs(Member::try_from(which)?, state)),
            Kind::LogicStatement => Ok(Test::StatementIs(Name::try_from(which)?, state)),
            _ => Ok(Test::PlaceIs(Place::try_from((kind, which))?, state)),
        }
    }

    // A comparison of a number with an entry.
    fn of_number(codes: TestCodes) -> Result<Test, UnknownCode>
        ensures { Decodes (number_test codes) result }
    {
        let number = Number::try_from(codes.which)?;
        let comparison = Comparison::from_code(codes.relation)?;
        let entry = number.entry(codes.entry).ok_or(UnknownCode)?;
        Ok(Test::NumberIs(number, comparison, entry))
    }

    // The codes of a test that something is ON or OFF.
    fn asked(kind: Kind, which: u16, state: State) -> TestCodes
        ensures { result ≡ asked kind which state }
    {
        TestCodes {
            kind: kind.code(),
            which,
            relation: state.code(),
            entry: 0,
        }
    }
}

impl From<Test> for TestCodes {
    ghost from_gives = { λ test codes. codes ≡ test_codes test };

    fn from(test: Test) -> TestCodes {
        match test {
            Test::PlaceIs(place, state) => Test::asked(place.kind(), place.code(), state),
            Test::MemberIs(member, state) => Test::asked(
                Kind::FamilyMember,
                u16::from(member),
                state,
            ),
            Test::StatementIs(name, state) => Test::asked(
                Kind::LogicStatement,
                u16::from(name.0),
                state,
            ),
            Test::NumberIs(number, comparison, entry) => TestCodes {
                kind: Kind::FrameNumber.code(),
                which: u16::from(number),
                relation: comparison.code(),
                entry: u16::from(entry),
            },
        }
    }
}

impl TryFrom<ActionCodes> for Action {
    type Error = UnknownCode;

    ghost try_from_gives = { λ codes r. Decodes (action_of codes) r };

    #[tactic(auto, unfolding(crate::specs::Lines::action_of))]
    fn try_from(codes: ActionCodes) -> Result<Action, UnknownCode> {
        let kind = Kind::from_code(codes.kind)?;
        if kind == Kind::DelayFor {
            return Action::of_delay(codes);
        }
        let state = State::from_code(codes.state)?;
        Action::of_state(kind, codes.which, state)
    }
}

impl Action {
    // An action that sets something ON or OFF.
    fn of_state(kind: Kind, which: u16, state: State) -> Result<Action, UnknownCode>
        ensures { Decodes (set_of kind which state) result }
    {
        match kind {
            Kind::FamilyMember => Ok(Action::SetMember(Member::try_from(which)?, state)),
            _ => Ok(Action::SetPlace(Place::try_from((kind, which))?, state)),
        }
    }

    // A DELAY, which has no state.
    fn of_delay(codes: ActionCodes) -> Result<Action, UnknownCode>
        ensures { Decodes (delay_of codes) result }
    {
        if codes.which > MAX_DELAY || codes.state != 0 {
            return Err(UnknownCode);
        }
        Ok(Action::Delay(Tenths(codes.which)))
    }
}

impl From<Action> for ActionCodes {
    ghost from_gives = { λ action codes. codes ≡ action_codes action };

    fn from(action: Action) -> ActionCodes {
        let (kind, which, state) = match action {
            Action::SetPlace(place, state) => (place.kind(), place.code(), state.code()),
            Action::SetMember(member, state) => (
                Kind::FamilyMember,
                u16::from(member),
                state.code(),
            ),
            Action::Delay(tenths) => (Kind::DelayFor, tenths.0, 0),
        };
        ActionCodes {
            kind: kind.code(),
            which,
            state,
        }
    }
}
