// The numbers of a frame, and their entries.
ghost use Rattle.std.specs.Prelude.{◌≡◌};
ghost use Rattle.tables.specs.Codes.{number_of, entry_in, entry_value};
ghost use Rattle.tables.specs.Decoded.{Decodes};
ghost use Rattle.tables.specs.Numbers.{number_code};

use crate::code::{Cases, Coded};
use crate::codes::unknown::UnknownCode;
use crate::number::{Entry, Number, Ring, Timer};
use crate::time::Seconds;

impl From<Entry> for u16 {
    ghost from_gives = { λ entry value. value ≡ entry_value entry };

    fn from(entry: Entry) -> u16 {
        match entry {
            Entry::Timed(seconds) => u16::from(seconds.0),
            Entry::Plain(value) => value,
        }
    }
}

// The number that stands at this place in a frame, counted from 0. Each way is a match, so that a line of it can be read beside
// the list of numbers; `codes_are_inverse` ties the two.
impl TryFrom<u16> for Number {
    type Error = UnknownCode;

    ghost try_from_gives = { λ code r. Decodes (number_of code) r };

    fn try_from(code: u16) -> Result<Number, UnknownCode> {
        match code {
            0..=23 => {
                let ring = Ring::from_code((code / 6) as u8 + 1)?;
                let timer = Timer::from_code((code % 6) as u8)?;
                Ok(Number::RingTimer(ring, timer))
            }
            24 => Ok(Number::CoordinationPlan),
            25 => Ok(Number::CycleLength),
            26 => Ok(Number::Offset),
            27 => Ok(Number::LocalCycleTimer),
            28 => Ok(Number::MasterCycleTimer),
            29..=32 => Ok(Number::SplitTimer(Ring::from_code((code - 28) as u8)?)),
            33 => Ok(Number::Month),
            34 => Ok(Number::DayOfMonth),
            35 => Ok(Number::DayOfWeek),
            36 => Ok(Number::Hour),
            37 => Ok(Number::Minute),
            38 => Ok(Number::Second),
            39 => Ok(Number::Tenth),
            40..=103 => Ok(Number::Volume((code - 39) as u8)),
            104..=167 => Ok(Number::Occupancy((code - 103) as u8)),
            168 => Ok(Number::SplitPattern),
            169 => Ok(Number::DetectorPlan),
            170 => Ok(Number::DayPlan),
            171 => Ok(Number::ActionPlan),
            172 => Ok(Number::Controller),
            173 => Ok(Number::Sequence),
            174 => Ok(Number::TimingPlan),
            175 => Ok(Number::RecallPlan),
            _ => Err(UnknownCode),
        }
    }
}

impl From<Number> for u16 {
    ghost from_gives = { λ number code. code ≡ number_code number };

    fn from(number: Number) -> u16 {
        match number {
            Number::RingTimer(ring, timer) => 6 * (u16::from(ring.code()) - 1)
                + u16::from(timer.code()),
            Number::CoordinationPlan => 24,
            Number::CycleLength => 25,
            Number::Offset => 26,
            Number::LocalCycleTimer => 27,
            Number::MasterCycleTimer => 28,
            Number::SplitTimer(ring) => 28 + u16::from(ring.code()),
            Number::Month => 33,
            Number::DayOfMonth => 34,
            Number::DayOfWeek => 35,
            Number::Hour => 36,
            Number::Minute => 37,
            Number::Second => 38,
            Number::Tenth => 39,
            Number::Volume(detector) => 39 + u16::from(detector),
            Number::Occupancy(detector) => 103 + u16::from(detector),
            Number::SplitPattern => 168,
            Number::DetectorPlan => 169,
            Number::DayPlan => 170,
            Number::ActionPlan => 171,
            Number::Controller => 172,
            Number::Sequence => 173,
            Number::TimingPlan => 174,
            Number::RecallPlan => 175,
        }
    }
}

impl Number {
    /// The entry of this value, where the number allows it: seconds for a ring timer, a plain value for any other.
    pub fn entry(self, value: u16) -> Option<Entry>
        ensures { result ≡ entry_in self value }
    {
        let allowed = self.entries();
        if value < allowed.least || value > allowed.greatest {
            return None;
        }
        if let Number::RingTimer(_, _) = self {
            return Some(Entry::Timed(Seconds(value as u8)));
        }
        Some(Entry::Plain(value))
    }
}
