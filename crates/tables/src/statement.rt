// One statement: IF its tests hold THEN the one branch, ELSE the other.
use crate::action::Action;
use crate::limits::{MAX_ACTIONS, MAX_TESTS};
use crate::refusal::Refusal;
use crate::test::JoinedTest;
use bounded::BoundedList;

/// A statement's name, from 1 to 100 in a table.
#[derive(Clone, Copy, PartialEq, Eq, PartialOrd, Ord)]
pub struct Name(pub u8);

/// Whether a statement runs: enabled, disabled, or as the action plan says.
#[derive(Clone, Copy)]
pub enum Mark {
    Enabled = b'E' as isize,
    Disabled = b'D' as isize,
    Planned = b'.' as isize,
}

// The mark of a character: E, D or the full stop.
// By the characters that a panel sends; `Coded` has the bytes of a document.
impl TryFrom<char> for Mark {
    ghost use Rattle.std.specs.Prelude.{◌≡◌};
    ghost use Rattle.std.specs.Option.{ok_or};
    ghost use Rattle.tables.specs.Codes.{mark_of};
    ghost use Rattle.tables.specs.declared.refusal.Refusal.TheVariants.{UnknownMark};

    type Error = Refusal;

    ghost try_from_gives = { λ character mark. mark ≡ ok_or (mark_of character) UnknownMark };

    fn try_from(character: char) -> Result<Mark, Refusal> {
        match character {
            'E' => Ok(Mark::Enabled),
            'D' => Ok(Mark::Disabled),
            '.' => Ok(Mark::Planned),
            _ => Err(Refusal::UnknownMark),
        }
    }
}

/// A statement, in memory of its own.
#[derive(Clone, Copy)]
pub struct Statement {
    pub name: Name,
    pub mark: Mark,
    pub tests: BoundedList<JoinedTest, MAX_TESTS>,
    pub then_actions: BoundedList<Action, MAX_ACTIONS>,
    pub else_actions: BoundedList<Action, MAX_ACTIONS>,
}
