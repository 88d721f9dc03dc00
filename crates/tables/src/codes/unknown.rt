// Codes that stand for nothing.
ghost use Rattle.std.specs.Prelude.{Some};
ghost use Rattle.tables.specs.UnknownCodes.{unknown_text};

use std::error::Error;
use std::fmt;

/// A code, or one of several, is out of range.
#[derive(Clone, Copy, Debug, PartialEq, Eq)]
pub struct UnknownCode;

impl fmt::Display for UnknownCode {
    ghost output = { λ _. Some unknown_text };

    fn fmt<W: fmt::Write>(&self, f: &mut fmt::Formatter<W>) -> fmt::Result {
        f.write_str("a code is out of range")
    }
}

impl Error for UnknownCode {}
