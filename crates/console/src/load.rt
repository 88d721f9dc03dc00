// The document at the front of the input, and the line for it.
ghost use Rattle.std.specs.Prelude.{◌≡◌, Some};
ghost use Rattle.documents.specs.Documents.{reading};
ghost use Rattle.console.specs.Lines.{length_in, loaded, line_of, load_text};

use documents::document::read_document;
use std::fmt;
use tables::refusal::Refusal;

/// How a document was taken: by which refusal, if it was refused.
#[derive(Clone, Copy)]
pub struct LoadLine {
    refusal: Option<Refusal>,
}

/// The length of the document, from the bytes in front of it. Fewer than two count as a length of 0.
pub fn document_length(header: &[u8]) -> usize
    ensures { result ≡ length_in header.now }
{
    match header {
        [high, low, ..] => usize::from(u16::from_be_bytes([*high, *low])),
        _ => 0,
    }
}

/// Reads a document, and says how it was taken.
pub fn load_line(document: &[u8]) -> LoadLine
    ensures { line_of result ≡ loaded (reading document.now) }
{
    LoadLine {
        refusal: read_document(document).err(),
    }
}

impl LoadLine {
    /// The refusal's number, 0 where the document was accepted.
    pub fn number(self) -> u8
        ensures { result ≡ (line_of self).number }
    {
        self.refusal.map_or(0, |refusal| refusal.number())
    }

    /// The place that the refusal names, 0 where there is none.
    pub fn place(self) -> usize
        ensures { result ≡ (line_of self).place }
    {
        self.refusal
            .and_then(|refusal| refusal.place())
            .unwrap_or(0)
    }
}

impl fmt::Display for LoadLine {
    ghost output = { λ l. Some (load_text (line_of l)) };

    fn fmt<W: fmt::Write>(&self, f: &mut fmt::Formatter<W>) -> fmt::Result {
        write!(f, "L {} {}", self.number(), self.place())
    }
}
