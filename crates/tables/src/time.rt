// Times. A frame, a DELAY and a wait count tenths of a second; the entry of a ring timer is in seconds.
ghost use Rattle.std.specs.Prelude.{◌≡◌, ◌*◌, ◌≤◌};

/// Tenths of a second.
#[derive(Clone, Copy, PartialEq, Eq, PartialOrd, Ord)]
pub struct Tenths(pub u16);

/// Whole seconds.
#[derive(Clone, Copy, PartialEq, Eq, PartialOrd, Ord)]
pub struct Seconds(pub u8);

// Ten times the seconds: the only conversion between the two.
impl From<Seconds> for Tenths {
    ghost from_gives = { λ seconds tenths. tenths.0 ≡ 10 * seconds.0 };

    fn from(seconds: Seconds) -> Tenths {
        Tenths(10 * u16::from(seconds.0))
    }
}
