// Fields, and documents of them.
use crate::rows::{bytes_of, put_text};
use std::alloc::AllocError;
use std::process::Abort;
use std::test::Fail;

// Here and below a tag is a number: tests write fields of no known tag.
/// Appends a field: its tag, the length of its body, high byte first, and the body.
pub fn put_field(document: &mut Vec<u8>, tag: u8, body: &[u8]) -> Result<(), AllocError> {
    let length = body.len();
    document.extend_from_slice(&[tag, (length / 256 & 0xff) as u8, (length & 0xff) as u8])?;
    document.extend_from_slice(body)
}

/// A document with a statement of these fields between two texts.
pub fn document_of(
    rt: &(impl Abort + AllocGlobal),
    front: &str,
    fields: &[u8],
    back: &str,
) -> Result<Vec<u8>, Fail> {
    let mut document = bytes_of(rt, front)?;
    put_field(&mut document, 0x02, fields)?;
    put_text(rt, &mut document, back)?;
    Ok(document)
}

/// A document of one statement, whose fields are those of a text and then this one.
pub fn document_with(
    rt: &(impl Abort + AllocGlobal),
    front: &str,
    tag: u8,
    body: &[u8],
) -> Result<Vec<u8>, Fail> {
    let mut fields = bytes_of(rt, front)?;
    put_field(&mut fields, tag, body)?;
    document_of(rt, "v", &fields, "")
}
