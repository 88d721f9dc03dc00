// The flags.
ghost use Rattle.std.specs.Prelude.{◌≡◌, ℕ, ◌<◌, Bool, false, List, length, replicate, IfSome, Decides, slice_index_or};
ghost use Rattle.tables.specs.Limits.{last_flag};
ghost use Rattle.tables.specs.declared.place.Place.TheVariants.{Flag};
ghost use Rattle.cells.specs.Bits.{bit};
ghost use Rattle.cells.specs.Cells.{is_on, state_when, packed_cell};
ghost use Rattle.rules.specs.Memory.{location, place_on, place_set};
ghost use Rattle.memory.specs.Flags.{flags_in, places_of, flag_location, flag_bytes};

use std::array;
use tables::limits::LAST_FLAG;
use tables::place::State;

/// How many flags there are.
pub const FLAGS: usize = LAST_FLAG as usize;

/// The bytes that hold them, eight flags to a byte.
pub const FLAG_BYTES: usize = FLAGS / 8;

/// The 64 flags, each ON or OFF; flag 1 is the first.
#[derive(Clone, Copy, PartialEq, Eq)]
pub struct FlagTable {
    on: [bool; FLAGS],
}

// Where a flag stands, or none for a number that is no flag's.
fn position(flag: u8) -> Option<usize>
    ensures place { location (Flag flag) ≡ flag_location result }
    ensures inside { IfSome result (λ at. at < last_flag) }
{
    match flag {
        1..=LAST_FLAG => Some(usize::from(flag) - 1),
        _ => None,
    }
}

// Eight flags as a byte, the first in the lowest bit. A fold would say the same with the byte so far as one more name.
fn packed(flags: &[bool]) -> u8
    requires { length flags.now ≡ 8 }
    ensures { (k : ℕ) → k < 8 → bit result k ≡ slice_index_or flags.now k false }
{
    let mut byte: u8 = 0;
    for (k, on) in flags.iter().enumerate() {
        byte |= u8::from(*on) << k;
    }
    byte
}

impl FlagTable {
    /// All flags OFF.
    pub fn new() -> Self
        ensures { flags_in result ≡ replicate last_flag false }
    {
        FlagTable { on: [false; FLAGS] }
    }

    /// Turns every flag OFF.
    pub fn clear(&mut self)
        ensures { flags_in self.new ≡ replicate last_flag false }
    {
        *self = FlagTable::new();
    }

    /// The state of a flag. A number that is no flag's reads OFF.
    pub fn read(&self, flag: u8) -> State
        ensures { (cells : List Bool) → result ≡ state_when (place_on (places_of cells self.now) (Flag flag)) }
    {
        match position(flag) {
            Some(at) => State::from(self.on[at]),
            None => State::Off,
        }
    }

    /// Sets one flag, and no other. A number that is no flag's sets none.
    pub fn write(&mut self, flag: u8, state: State)
        ensures { (cells : List Bool) → places_of cells self.new ≡ place_set (Flag flag) (is_on state) (places_of cells self.old) }
    {
        if let Some(at) = position(flag) {
            self.on[at] = bool::from(state);
        }
    }

    /// The flags as bytes, eight to a byte, flag 1 in the lowest bit of the first.
    pub fn bytes(&self) -> [u8; FLAG_BYTES]
        ensures size { length result ≡ flag_bytes }
        ensures whole { length (flags_in self.now) ≡ last_flag }
        ensures bits { (i : ℕ) → i < last_flag → packed_cell result i ≡ slice_index_or (flags_in self.now) i false }
    {
        array::from_fn(|i| packed(&self.on[8 * i..8 * i + 8]))
    }

    /// Whether two tables have the same flags ON.
    pub fn same(&self, other: &FlagTable) -> bool
        ensures { Decides result (flags_in self.now ≡ flags_in other.now) }
    {
        self == other
    }
}
