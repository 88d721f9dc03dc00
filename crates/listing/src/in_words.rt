// Printing in words: each part of a table says how, and a wrapper lets it stand in a format.
ghost use Rattle.std.specs.Prelude.{ℕ, List, Some};
ghost use Rattle.std.specs.Fmt.{WritesOnOk};
ghost use Rattle.listing.specs.Each.{each_text};

use std::fmt;

/// What can be put into the words of an engineer. The parts of a table are types of another crate, so that `Display` cannot be
/// theirs here: `InWords` has it for them.
pub trait Worded {
    ghost worded: { Self → List ℕ };

    fn write_words<W: fmt::Write>(&self, f: &mut fmt::Formatter<W>) -> fmt::Result
        ensures { WritesOnOk W.Write.write_str_gives f.old result (worded self.now) f.new };
}

/// A part of a table that `{}` prints in words.
#[derive(Drop)]
pub struct InWords<'a, T>(pub &'a T);

impl<T: Worded> fmt::Display for InWords<'_, T> {
    ghost output = { λ part. Some (T.Worded.worded part.0.now) };

    fn fmt<W: fmt::Write>(&self, f: &mut fmt::Formatter<W>) -> fmt::Result {
        self.0.write_words(f)
    }
}

/// Writes some parts in words, one after another, each behind the same lead.
pub(crate) fn write_each<T: Worded, W: fmt::Write>(
    f: &mut fmt::Formatter<W>,
    lead: &str,
    parts: &[T],
) -> fmt::Result
    ensures { WritesOnOk W.Write.write_str_gives f.old result (each_text T.Worded.worded lead.now parts.now) f.new }
{
    for part in parts {
        write!(f, "{lead}{}", InWords(part))?;
    }
    Ok(())
}
