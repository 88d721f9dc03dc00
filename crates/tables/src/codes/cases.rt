// The types whose cases each have a code.
ghost use Rattle.tables.specs.Codes.{state_code, states, join_code, joins, comparison_code, comparisons, mark_code, marks, kind_code, kinds};
ghost use Rattle.tables.specs.Families.{family_code, families};
ghost use Rattle.tables.specs.Numbers.{ring_code, rings, timer_code, timers};

use crate::code::{Cases, Coded};
use crate::family::Family;
use crate::number::{Ring, Timer};
use crate::place::State;
use crate::statement::Mark;
use crate::test::{Comparison, Join};

/// What a line of a document is about.
#[derive(Clone, Copy, PartialEq, Eq)]
pub enum Kind {
    Cib = 1,
    Cob = 2,
    LogicFlag = 3,
    FamilyMember = 4,
    LogicStatement = 5,
    FrameNumber = 6,
    DelayFor = 7,
}

const STATES: [State; 2] = [State::Off, State::On];

const JOINS: [Join; 3] = [Join::First, Join::And, Join::Or];

const COMPARISONS: [Comparison; 4] = [
    Comparison::Is,
    Comparison::IsNot,
    Comparison::Greater,
    Comparison::Less,
];

const MARKS: [Mark; 3] = [Mark::Enabled, Mark::Disabled, Mark::Planned];

const RINGS: [Ring; 4] = [Ring::One, Ring::Two, Ring::Three, Ring::Four];

const TIMERS: [Timer; 6] = [
    Timer::MinGreen,
    Timer::MaxGreen,
    Timer::Yellow,
    Timer::RedClear,
    Timer::Walk,
    Timer::PedClear,
];

const KINDS: [Kind; 7] = [
    Kind::Cib,
    Kind::Cob,
    Kind::LogicFlag,
    Kind::FamilyMember,
    Kind::LogicStatement,
    Kind::FrameNumber,
    Kind::DelayFor,
];

const FAMILIES: [Family; 30] = [
    Family::PhaseGreen,
    Family::PhaseYellow,
    Family::PhaseRed,
    Family::PhaseWalk,
    Family::PhasePedClear,
    Family::PhaseDontWalk,
    Family::OverlapGreen,
    Family::OverlapYellow,
    Family::OverlapRed,
    Family::LoadSwitchGreen,
    Family::LoadSwitchYellow,
    Family::LoadSwitchRed,
    Family::PhaseTiming,
    Family::VehicleCheck,
    Family::PedCheck,
    Family::VehicleDetector,
    Family::PedDetector,
    Family::Hold,
    Family::Omit,
    Family::PedOmit,
    Family::InhibitMax,
    Family::MaxTwo,
    Family::MaxThree,
    Family::OmitRedClear,
    Family::RedRest,
    Family::PedRecycle,
    Family::ForceOff,
    Family::StopTime,
    Family::Alarm,
    Family::PreemptCall,
];

// An impl for each type: only where the type is named can a case be cast to its code.
impl Coded for State {
    ghost coded = { state_code };

    fn code(self) -> u8 {
        self as u8
    }
}

impl Cases for State {
    ghost cases = { states };

    fn all() -> &'static [State] {
        &STATES
    }
}

impl Coded for Join {
    ghost coded = { join_code };

    fn code(self) -> u8 {
        self as u8
    }
}

impl Cases for Join {
    ghost cases = { joins };

    fn all() -> &'static [Join] {
        &JOINS
    }
}

impl Coded for Comparison {
    ghost coded = { comparison_code };

    fn code(self) -> u8 {
        self as u8
    }
}

impl Cases for Comparison {
    ghost cases = { comparisons };

    fn all() -> &'static [Comparison] {
        &COMPARISONS
    }
}

impl Coded for Mark {
    ghost coded = { mark_code };

    fn code(self) -> u8 {
        self as u8
    }
}

impl Cases for Mark {
    ghost cases = { marks };

    fn all() -> &'static [Mark] {
        &MARKS
    }
}

impl Coded for Kind {
    ghost coded = { kind_code };

    fn code(self) -> u8 {
        self as u8
    }
}

impl Cases for Kind {
    ghost cases = { kinds };

    fn all() -> &'static [Kind] {
        &KINDS
    }
}

impl Coded for Ring {
    ghost coded = { ring_code };

    fn code(self) -> u8 {
        self as u8
    }
}

impl Cases for Ring {
    ghost cases = { rings };

    fn all() -> &'static [Ring] {
        &RINGS
    }
}

impl Coded for Timer {
    ghost coded = { timer_code };

    fn code(self) -> u8 {
        self as u8
    }
}

impl Cases for Timer {
    ghost cases = { timers };

    fn all() -> &'static [Timer] {
        &TIMERS
    }
}

impl Coded for Family {
    ghost coded = { family_code };

    fn code(self) -> u8 {
        self as u8
    }
}

impl Cases for Family {
    ghost cases = { families };

    fn all() -> &'static [Family] {
        &FAMILIES
    }
}
