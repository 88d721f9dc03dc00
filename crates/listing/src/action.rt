// The line of an action, behind THEN or ELSE.
ghost use Rattle.listing.specs.Lines.{action_text};

use crate::family::family_set;
use crate::in_words::{InWords, Worded};
use crate::words::state_label;
use std::fmt;
use tables::action::Action;

// A DELAY is printed in seconds, with its tenths.
impl Worded for Action {
    ghost worded = { action_text };

    fn write_words<W: fmt::Write>(&self, f: &mut fmt::Formatter<W>) -> fmt::Result {
        match *self {
            Action::SetPlace(place, state) => write!(
                f,
                "SET {} {}",
                InWords(&place),
                state_label(state)
            ),
            Action::SetMember(member, state) => {
                write!(
                    f,
                    "SET {} {} {}",
                    family_set(member.family),
                    member.number,
                    state_label(state)
                )
            }
            Action::Delay(tenths) => write!(f, "DELAY FOR {}.{}", tenths.0 / 10, tenths.0 % 10),
        }
    }
}
