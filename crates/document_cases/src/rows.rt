// A row of a table of documents: how its document is written down, and how its answer is checked.
use console::load::load_line;
use std::fmt::Display;
use std::process::Abort;
use std::test::Fail;

/// A refusal's number and its place.
#[derive(Clone, Copy)]
pub struct Refused(pub u8, pub usize);

impl Refused {
    /// The same refusal once `more` bytes stand in front of the field at fault.
    pub fn behind(self, more: usize) -> Refused {
        Refused(self.0, self.1.saturating_add(more))
    }
}

/// A label; a document, or the part of one that the table is about, as `put_text` reads it; and the refusal, or none where
/// the document loads.
pub struct Row(pub &'static str, pub &'static str, pub Option<Refused>);

/// Fails, with the label, where a document is taken otherwise than expected. The line of a document that loads has 0 and 0.
pub fn check_row<L: Display>(
    rt: &(impl Abort + AllocGlobal),
    label: &L,
    document: &[u8],
    expected: Option<Refused>,
) {
    let line = load_line(document);
    let Refused(number, place) = expected.unwrap_or(Refused(0, 0));
    let answered = line.number();
    let at = line.place();
    assert!(rt;
        answered == number && at == place,
        "{label}: {answered} {at} answered, {number} {place} expected"
    );
}

// A whole field that many documents have, by one letter: its tag, its length and its body.
fn field_of(letter: u8) -> Option<&'static [u8]> {
    match letter {
        // between fields
        b' ' => Some(&[]),
        // version 1: 4 bytes
        b'v' => Some(&[0x01, 0, 1, 1]),
        // a statement named 50, with one test: 17 bytes
        b's' => Some(&[0x02, 0, 14, 0x10, 0, 1, 50, 0x12, 0, 7, 0, 3, 0, 1, 0, 0, 0]),
        // plan 1, with no names: 4 bytes
        b'p' => Some(&[0x03, 0, 1, 1]),
        // name 7: 4 bytes
        b'n' => Some(&[0x10, 0, 1, 7]),
        // mark E: 4 bytes
        b'm' => Some(&[0x11, 0, 1, 0x45]),
        // IF flag 1 is OFF, a first test: 10 bytes
        b'i' => Some(&[0x12, 0, 7, 0, 3, 0, 1, 0, 0, 0]),
        // AND flag 2 is ON, a joined test: 10 bytes
        b'j' => Some(&[0x12, 0, 7, 1, 3, 0, 2, 1, 0, 0]),
        // THEN SET flag 3 ON: 7 bytes
        b't' => Some(&[0x13, 0, 4, 3, 0, 3, 1]),
        // THEN DELAY of 256 tenths: 7 bytes
        b'd' => Some(&[0x13, 0, 4, 7, 1, 0, 0]),
        // ELSE SET flag 3 OFF: 7 bytes
        b'e' => Some(&[0x14, 0, 4, 3, 0, 3, 0]),
        _ => None,
    }
}

fn hex_digit(character: u8) -> Option<u8> {
    match character {
        b'0'..=b'9' => Some(character - b'0'),
        b'A'..=b'F' => Some(character - b'A' + 10),
        _ => None,
    }
}

/// Appends what a text says: two hex digits for a byte, and a small letter for a whole field.
pub fn put_text(
    rt: &(impl Abort + AllocGlobal),
    bytes: &mut Vec<u8>,
    text: &str,
) -> Result<(), Fail> {
    let mut high: Option<u8> = None;
    for character in text.as_bytes() {
        match (hex_digit(*character), high) {
            (Some(digit), None) => high = Some(digit),
            (Some(digit), Some(sixteens)) => {
                bytes.push(sixteens.wrapping_mul(16) | digit)?;
                high = None;
            }
            (None, _) => bytes.extend_from_slice(field_of(*character).ok_or("no such letter")?)?,
        }
    }
    assert!(rt; high.is_none(), "half a byte in {text}");
    Ok(())
}

/// The bytes that a text says.
pub fn bytes_of(rt: &(impl Abort + AllocGlobal), text: &str) -> Result<Vec<u8>, Fail> {
    let mut bytes = Vec::new(rt.alloc());
    put_text(rt, &mut bytes, text)?;
    Ok(bytes)
}

/// Checks rows whose texts stand behind the bytes `front`.
pub fn check_behind(
    rt: &(impl Abort + AllocGlobal),
    front: &[u8],
    rows: &[Row],
) -> Result<(), Fail> {
    for row in rows.iter() {
        let mut document = Vec::from_slice(rt.alloc(), front)?;
        put_text(rt, &mut document, row.1)?;
        check_row(rt, &row.0, &document, row.2);
    }
    Ok(())
}
