// Why a call is refused.
ghost use Rattle.std.specs.Prelude.{◌≡◌, Some};
ghost use Rattle.tables.specs.Refusals.{told, place_told};
ghost use Rattle.tables.specs.RefusalTexts.{rule_text, refusal_text};

use crate::statement::Name;
use std::fmt;

/// A refusal with its values: the first byte of the faulty field, counted from 0, in the first six; the two names, earlier and
/// later as they now stand; the bytes that a buffer would need.
#[derive(Clone, Copy, PartialEq, Eq)]
pub enum Refusal {
    Truncated(usize),
    NotDue(usize),
    TooMany(usize),
    OutOfRange(usize),
    Conflicting(usize),
    DelaysTooLong(usize),
    NotAFrame,
    NoSuchStatement,
    UnknownMark,
    NotTheNames,
    TouchingPair(Name, Name),
    BufferTooShort(usize),
}

impl Refusal {
    /// The refusal's number, 1 to 12.
    pub fn number(self) -> u8
        ensures { result ≡ (told self).number }
    {
        match self {
            Refusal::Truncated(_) => 1,
            Refusal::NotDue(_) => 2,
            Refusal::TooMany(_) => 3,
            Refusal::OutOfRange(_) => 4,
            Refusal::Conflicting(_) => 5,
            Refusal::DelaysTooLong(_) => 6,
            Refusal::NotAFrame => 7,
            Refusal::NoSuchStatement => 8,
            Refusal::UnknownMark => 9,
            Refusal::NotTheNames => 10,
            Refusal::TouchingPair(_, _) => 11,
            Refusal::BufferTooShort(_) => 12,
        }
    }

    /// The place that it names, if it names one.
    pub fn place(self) -> Option<usize>
        ensures { result ≡ place_told (told self) }
    {
        match self {
            Refusal::Truncated(place)
            | Refusal::NotDue(place)
            | Refusal::TooMany(place)
            | Refusal::OutOfRange(place)
            | Refusal::Conflicting(place)
            | Refusal::DelaysTooLong(place) => Some(place),
            _ => None,
        }
    }

    /// Which rule is broken, in words.
    pub fn rule(self) -> &'static str
        ensures { result.now ≡ rule_text self }
    {
        match self {
            Refusal::Truncated(_) =>
                "a field is cut short: its header or its body passes the end of what encloses it",
            Refusal::NotDue(_) =>
                "a field is not due here, a required one is missing, or a body has the wrong length",
            Refusal::TooMany(_) =>
                "a statement has too many tests, or one of its branches too many actions",
            Refusal::OutOfRange(_) => "a byte, a code or an entry has a value that is not allowed",
            Refusal::Conflicting(_) =>
                "a name is used twice, a plan or its names do not rise, or a plan lists a name that is not in the table",
            Refusal::DelaysTooLong(_) => "the DELAYs of a branch add up to too long a time",
            Refusal::NotAFrame => "the frame is not exactly 520 bytes long",
            Refusal::NoSuchStatement => "the table has no statement of that name",
            Refusal::UnknownMark => "the mark is not E, D or the full stop",
            Refusal::NotTheNames => "the list does not have each name of the table exactly once",
            Refusal::TouchingPair(_, _) => "two statements that touch would change their order",
            Refusal::BufferTooShort(_) => "the buffer is too short",
        }
    }
}

// The rule, and then the names or the bytes that the refusal returns; the place is left to the caller.
impl fmt::Display for Refusal {
    ghost output = { λ refusal. Some (refusal_text refusal) };

    fn fmt<W: fmt::Write>(&self, f: &mut fmt::Formatter<W>) -> fmt::Result {
        let rule = self.rule();
        match *self {
            Refusal::TouchingPair(earlier, later) => write!(
                f,
                "{rule}: {} and {}",
                earlier.0, later.0
            ),
            Refusal::BufferTooShort(needed) => write!(f, "{rule}: {needed} bytes are needed"),
            _ => f.write_str(rule),
        }
    }
}
