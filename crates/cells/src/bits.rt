// Single bits of a byte, bit 0 the lowest.
ghost use Rattle.std.specs.Prelude.{◌≡◌, ℕ, ◌<◌, if◌then◌else◌, nat_eq};
ghost use Rattle.cells.specs.Bits.{bit};

// Whether bit `k` is 1.
pub(crate) fn test(byte: u8, k: u8) -> bool
    requires { k < 8 }
    ensures { result ≡ bit byte k }
{
    (byte >> k) & 1 == 1
}

// The byte with bit `k` as given, and every other bit as it was.
#[tactic(auto, using(crate::proofs::SingleBits::or_sets, crate::proofs::SingleBits::and_clears))]
pub(crate) fn put(byte: u8, k: u8, on: bool) -> u8
    requires { k < 8 }
    ensures { (j : ℕ) → j < 8 → bit result j ≡ (if nat_eq j k then on else bit byte j) }
{
    if on {
        byte | (1 << k)
    } else {
        byte & !(1 << k)
    }
}
