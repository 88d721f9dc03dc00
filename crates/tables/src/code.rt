// Types whose cases each have a code in a table document.
ghost use Rattle.std.specs.Prelude.{◌≡◌, ℕ, List};
ghost use Rattle.tables.specs.Decoded.{Decodes, decoded};

use crate::codes::unknown::UnknownCode;

/// A type whose cases each have a code.
pub trait Coded: Copy {
    ghost coded: { Self → ℕ };

    fn code(self) -> u8
        ensures { result ≡ coded self };
}

/// The one of `all` that has this code, if one has.
pub fn decode<T: Coded>(all: &[T], code: u8) -> Option<T>
    ensures { result ≡ decoded T.Coded.coded all.now code }
{
    all.iter().copied().find(|case| case.code() == code)
}

/// A type whose cases are listed.
pub trait Cases: Coded + 'static {
    ghost cases: { List Self };

    /// All cases, in the order of the specification.
    fn all() -> &'static [Self]
        ensures { result.now ≡ cases };

    /// The case that has this code, if one has.
    fn with_code(code: u8) -> Option<Self>
        ensures { result ≡ decoded Self.coded cases code }
    {
        decode(Self::all(), code)
    }

    /// The same as a result, which `?` carries on. A `TryFrom` for each type would be no plainer, and Rust has none for all types
    /// with a bound.
    fn from_code(code: u8) -> Result<Self, UnknownCode>
        ensures { Decodes (decoded Self.coded cases code) result }
    {
        Self::with_code(code).ok_or(UnknownCode)
    }
}
