// The words of single values: a state, a join, a comparison, a mark. Each is one fixed text, so that a function gives it as it
// is; `Worded` would wrap the value in `InWords` wherever it is printed, and a family has two texts.
ghost use Rattle.std.specs.Prelude.{◌≡◌};
ghost use Rattle.listing.specs.Words.{state_text, join_text, comparison_text, mark_text};

use tables::place::State;
use tables::statement::Mark;
use tables::test::{Comparison, Join};

/// A state.
pub fn state_label(state: State) -> &'static str
    ensures { result.now ≡ state_text state }
{
    match state {
        State::Off => "OFF",
        State::On => "ON",
    }
}

/// The word before a test: the first opens the IF, and each later one says how it is joined.
pub fn join_label(join: Join) -> &'static str
    ensures { result.now ≡ join_text join }
{
    match join {
        Join::First => "IF",
        Join::And => "AND",
        Join::Or => "OR",
    }
}

/// How a number stands to its entry.
pub fn comparison_label(comparison: Comparison) -> &'static str
    ensures { result.now ≡ comparison_text comparison }
{
    match comparison {
        Comparison::Is => "IS",
        Comparison::IsNot => "!=",
        Comparison::Greater => ">",
        Comparison::Less => "<",
    }
}

/// The character of a mark.
pub fn mark_label(mark: Mark) -> &'static str
    ensures { result.now ≡ mark_text mark }
{
    match mark {
        Mark::Enabled => "E",
        Mark::Disabled => "D",
        Mark::Planned => ".",
    }
}
