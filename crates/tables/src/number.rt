// The numbers of a frame, and the entries that a test may compare them with.
ghost use Rattle.std.specs.Prelude.{◌≡◌};
ghost use Rattle.tables.specs.Numbers.{entry_range};

use crate::time::Seconds;

/// A ring.
#[derive(Clone, Copy)]
pub enum Ring {
    One = 1,
    Two = 2,
    Three = 3,
    Four = 4,
}

/// A timer of a ring.
#[derive(Clone, Copy)]
pub enum Timer {
    MinGreen = 0,
    MaxGreen = 1,
    Yellow = 2,
    RedClear = 3,
    Walk = 4,
    PedClear = 5,
}

/// A quantity that each frame carries. Detectors are numbered from 1 to 64.
#[derive(Clone, Copy)]
pub enum Number {
    RingTimer(Ring, Timer),
    CoordinationPlan,
    CycleLength,
    Offset,
    LocalCycleTimer,
    MasterCycleTimer,
    SplitTimer(Ring),
    Month,
    DayOfMonth,
    DayOfWeek,
    Hour,
    Minute,
    Second,
    Tenth,
    Volume(u8),
    Occupancy(u8),
    SplitPattern,
    DetectorPlan,
    DayPlan,
    ActionPlan,
    Controller,
    Sequence,
    TimingPlan,
    RecallPlan,
}

/// What a number is compared with: seconds for a ring timer, a plain value for any other.
#[derive(Clone, Copy)]
pub enum Entry {
    Timed(Seconds),
    Plain(u16),
}

/// The least and the greatest entry of a number.
#[derive(Clone, Copy)]
pub struct EntryRange {
    pub least: u16,
    pub greatest: u16,
}

impl Number {
    /// The entries that a test of this number may have. They do not bind what a frame holds.
    pub fn entries(self) -> EntryRange
        ensures { result ≡ entry_range self }
    {
        let (least, greatest) = match self {
            Number::RingTimer(_, _) => (0, 255),
            Number::CoordinationPlan => (0, 120),
            Number::CycleLength => (0, 999),
            Number::Offset => (0, 255),
            Number::LocalCycleTimer => (0, 2047),
            Number::MasterCycleTimer => (0, 999),
            Number::SplitTimer(_) => (0, 2047),
            Number::Month => (1, 12),
            Number::DayOfMonth => (1, 31),
            Number::DayOfWeek => (1, 7),
            Number::Hour => (0, 23),
            Number::Minute => (0, 59),
            Number::Second => (0, 59),
            Number::Tenth => (0, 9),
            Number::Volume(_) => (0, 2047),
            Number::Occupancy(_) => (0, 999),
            Number::SplitPattern => (1, 120),
            Number::DetectorPlan => (1, 4),
            Number::DayPlan => (1, 16),
            Number::ActionPlan => (1, 100),
            Number::Controller => (1, 4),
            Number::Sequence => (1, 16),
            Number::TimingPlan => (1, 4),
            Number::RecallPlan => (1, 4),
        };
        EntryRange { least, greatest }
    }
}
