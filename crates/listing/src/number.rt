// What the numbers of a frame are called: a label, and behind it the ring or the detector where the number has one. The labels
// are fixed texts, as in `words`.
ghost use Rattle.std.specs.Prelude.{◌≡◌};
ghost use Rattle.listing.specs.Numbers.{timer_label, number_label, number_index, number_text};

use crate::in_words::Worded;
use std::fmt;
use tables::code::Coded;
use tables::number::{Number, Timer};

/// A timer's label, without its ring.
pub fn timer_label(timer: Timer) -> &'static str
    ensures { result.now ≡ timer_label timer }
{
    match timer {
        Timer::MinGreen => "MIN GRN TMR RING",
        Timer::MaxGreen => "MAX GRN TMR RING",
        Timer::Yellow => "YELLOW TMR RING",
        Timer::RedClear => "RED TIMER RING",
        Timer::Walk => "WALK TIMER RING",
        Timer::PedClear => "PCLR TIMER RING",
    }
}

/// A number's label, without its ring or its detector.
pub fn number_label(number: Number) -> &'static str
    ensures { result.now ≡ number_label number }
{
    match number {
        Number::RingTimer(_, timer) => timer_label(timer),
        Number::CoordinationPlan => "COORD PLAN",
        Number::CycleLength => "CYCLE LENGTH",
        Number::Offset => "OFFSET",
        Number::LocalCycleTimer => "LOCAL CYCLE TIMER",
        Number::MasterCycleTimer => "MASTER CYCLE TIMER",
        Number::SplitTimer(_) => "SPLIT TIMER RING",
        Number::Month => "TOD MONTH",
        Number::DayOfMonth => "TOD DAY OF MONTH",
        Number::DayOfWeek => "TOD DAY OF WEEK",
        Number::Hour => "TOD HOUR",
        Number::Minute => "TOD MINUTE",
        Number::Second => "TOD SECOND",
        Number::Tenth => "TOD TENTH SEC",
        Number::Volume(_) => "DETECTOR VOLUME",
        Number::Occupancy(_) => "DET OCCUPANCY",
        Number::SplitPattern => "SPLIT PATTERN",
        Number::DetectorPlan => "DETECTOR PLAN",
        Number::DayPlan => "DAY PLAN",
        Number::ActionPlan => "ACTION PLAN",
        Number::Controller => "CONTROLLER",
        Number::Sequence => "SEQUENCE",
        Number::TimingPlan => "TIMING PLAN",
        Number::RecallPlan => "RECALL PLAN",
    }
}

/// The ring or the detector that a number is of, if it is of one.
pub fn number_index(number: Number) -> Option<u8>
    ensures { result ≡ number_index number }
{
    match number {
        Number::RingTimer(ring, _) | Number::SplitTimer(ring) => Some(ring.code()),
        Number::Volume(detector) | Number::Occupancy(detector) => Some(detector),
        _ => None,
    }
}

impl Worded for Number {
    ghost worded = { number_text };

    fn write_words<W: fmt::Write>(&self, f: &mut fmt::Formatter<W>) -> fmt::Result {
        let label = number_label(*self);
        match number_index(*self) {
            Some(index) => write!(f, "{label} {index}"),
            None => f.write_str(label),
        }
    }
}
