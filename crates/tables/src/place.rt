// What a statement tests and sets: a cell of the controller's input or output buffer, or a flag.
ghost use Rattle.std.specs.Prelude.{◌≡◌};
ghost use Rattle.tables.specs.States.{is_on, state_when, opposite_of};

use std::ops::Not;

/// OFF or ON.
#[derive(Clone, Copy, PartialEq, Eq)]
pub enum State {
    Off = 0,
    On = 1,
}

impl From<bool> for State {
    ghost from_gives = { λ on state. state ≡ state_when on };

    fn from(on: bool) -> State {
        if on { State::On } else { State::Off }
    }
}

impl From<State> for bool {
    ghost from_gives = { λ state on. on ≡ is_on state };

    fn from(state: State) -> bool {
        match state {
            State::Off => false,
            State::On => true,
        }
    }
}

impl Not for State {
    type Output = State;

    ghost not_gives = { λ state other. other ≡ opposite_of state };

    fn not(self) -> State {
        match self {
            State::Off => State::On,
            State::On => State::Off,
        }
    }
}

/// One of the controller's two buffers of cells.
#[derive(Clone, Copy, PartialEq, Eq)]
pub enum Buffer {
    Input,
    Output,
}

/// A cell by its code, or a flag by its number.
#[derive(Clone, Copy, PartialEq, Eq)]
pub enum Place {
    InputCell(u16),
    OutputCell(u16),
    Flag(u8),
}
