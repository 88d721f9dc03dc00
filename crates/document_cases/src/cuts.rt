// The worked example cut at every byte, and with every length of its statement.
use crate::rows::{Refused, bytes_of, check_row, put_text};
use std::process::Abort;
use std::test::Fail;

/// A label, the first and the last of some lengths in a row, and the refusal at each, or none.
struct Cut(&'static str, u8, u8, Option<Refused>);

// How much of the example is there. Its version ends at 4 and its statement at 32.
static FRONTS: &[Cut] = &[
    Cut("nothing", 0, 0, Some(Refused(2, 0))),
    Cut("inside the version", 1, 3, Some(Refused(1, 0))),
    Cut("behind the version", 4, 4, None),
    Cut("inside the statement", 5, 31, Some(Refused(1, 4))),
    Cut("the whole example", 32, 32, None),
];

// The length that the statement says. Its name begins at 7, its mark at 11, its test at 15 and its action at 25, which
// ends at 32. A field that it leaves out stands in the document, which has no such tag.
static LENGTHS: &[Cut] = &[
    Cut("no field", 0, 0, Some(Refused(2, 4))),
    Cut("a cut name", 1, 3, Some(Refused(1, 7))),
    Cut("a name", 4, 4, Some(Refused(2, 4))),
    Cut("a cut mark", 5, 7, Some(Refused(1, 11))),
    Cut("a name and a mark", 8, 8, Some(Refused(2, 4))),
    Cut("a cut test", 9, 17, Some(Refused(1, 15))),
    Cut("all but the action", 18, 18, Some(Refused(2, 25))),
    Cut("a cut action", 19, 24, Some(Refused(1, 25))),
    Cut("every field", 25, 25, None),
    Cut("more than there is", 26, 255, Some(Refused(1, 4))),
];

// The fields of the example's statement.
const FIELDS: &str = "n m 12 0007 00 04 0102 01 0000 13 0004 02 00A0 01";

// The example with another length of its statement.
fn with_length(rt: &(impl Abort + AllocGlobal), length: u8) -> Result<Vec<u8>, Fail> {
    let mut document = bytes_of(rt, "v 02 00")?;
    document.push(length)?;
    put_text(rt, &mut document, FIELDS)?;
    Ok(document)
}

fn check_lengths(rt: &(impl Abort + AllocGlobal)) -> Result<(), Fail> {
    for cut in LENGTHS.iter() {
        for length in cut.1..=cut.2 {
            let document = with_length(rt, length)?;
            let label = cut.0;
            check_row(
                rt,
                &format_args!("{label}, in a statement of length {length}"),
                &document,
                cut.3,
            );
        }
    }
    Ok(())
}

fn check_fronts(rt: &(impl Abort + AllocGlobal), example: &[u8]) -> Result<(), Fail> {
    for cut in FRONTS.iter() {
        for length in cut.1..=cut.2 {
            let end = usize::from(length);
            assert!(rt; end <= example.len());
            let label = cut.0;
            check_row(
                rt,
                &format_args!("{label}, in the first {length} bytes"),
                &example[0..end],
                cut.3,
            );
        }
    }
    Ok(())
}

#[test]
fn cut_examples(rt: HostRuntime) -> Result<(), Fail> {
    check_fronts(&rt, &with_length(&rt, 25)?)?;
    check_lengths(&rt)
}
