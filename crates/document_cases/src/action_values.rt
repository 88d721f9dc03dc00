// The values of actions. Behind the only test of a document an action stands at 21.
use crate::fields::document_with;
use crate::rows::{Refused, check_row};
use std::process::Abort;
use std::test::Fail;

// Codes as numbers, since many of them stand for nothing.
/// A label; the action's kind, which and state; and the refusal of it as the first action, or none.
/// The which of a family has the family in its high byte and the member in its low one.
#[derive(Clone, Copy)]
pub struct ActionRow(
    pub &'static str,
    pub u8,
    pub u16,
    pub u8,
    pub Option<Refused>,
);

static ACTIONS: &[ActionRow] = &[
    ActionRow("kind 0", 0, 1, 1, Some(Refused(4, 21))),
    ActionRow("kind 5, a statement", 5, 1, 1, Some(Refused(4, 21))),
    ActionRow("kind 6, a number", 6, 1, 1, Some(Refused(4, 21))),
    ActionRow("kind 8", 8, 1, 1, Some(Refused(4, 21))),
    ActionRow("kind 255", 255, 1, 0, Some(Refused(4, 21))),
    ActionRow("input cell 0", 1, 0, 0, None),
    ActionRow("input cell 575", 1, 575, 1, None),
    ActionRow("input cell 576", 1, 576, 1, Some(Refused(4, 21))),
    ActionRow("output cell 0", 2, 0, 0, None),
    ActionRow("output cell 767", 2, 767, 1, None),
    ActionRow("output cell 768", 2, 768, 1, Some(Refused(4, 21))),
    ActionRow("flag 0", 3, 0, 1, Some(Refused(4, 21))),
    ActionRow("flag 1", 3, 1, 0, None),
    ActionRow("flag 64", 3, 64, 1, None),
    ActionRow("flag 65", 3, 65, 1, Some(Refused(4, 21))),
    ActionRow("flag 257", 3, 257, 1, Some(Refused(4, 21))),
    ActionRow("family 0", 4, 0x0001, 1, Some(Refused(4, 21))),
    ActionRow("family 1", 4, 0x0101, 1, None),
    ActionRow("family 30", 4, 0x1E01, 1, None),
    ActionRow("family 31", 4, 0x1F01, 1, Some(Refused(4, 21))),
    ActionRow("family 1, member 0", 4, 0x0100, 0, None),
    ActionRow("family 1, member 17", 4, 0x0111, 0, Some(Refused(4, 21))),
    ActionRow("family 16, member 0", 4, 0x1000, 1, Some(Refused(4, 21))),
    ActionRow("family 16, member 1", 4, 0x1001, 1, None),
    ActionRow("family 16, member 64", 4, 0x1040, 1, None),
    ActionRow("family 16, member 65", 4, 0x1041, 1, Some(Refused(4, 21))),
    ActionRow("state 2 of an input cell", 1, 1, 2, Some(Refused(4, 21))),
    ActionRow(
        "state 255 of an input cell",
        1,
        1,
        255,
        Some(Refused(4, 21)),
    ),
    ActionRow("state 2 of an output cell", 2, 1, 2, Some(Refused(4, 21))),
    ActionRow("state 2 of a flag", 3, 1, 2, Some(Refused(4, 21))),
    ActionRow("state 2 of a family", 4, 0x0101, 2, Some(Refused(4, 21))),
    ActionRow("DELAY 0", 7, 0, 0, None),
    ActionRow("DELAY 2047", 7, 2047, 0, None),
    ActionRow("DELAY 2048", 7, 2048, 0, Some(Refused(4, 21))),
    ActionRow("DELAY 65535", 7, 65535, 0, Some(Refused(4, 21))),
    ActionRow("DELAY 0 with state 1", 7, 0, 1, Some(Refused(4, 21))),
    ActionRow("DELAY 2047 with state 1", 7, 2047, 1, Some(Refused(4, 21))),
    ActionRow("DELAY 1 with state 2", 7, 1, 2, Some(Refused(4, 21))),
];

/// Checks an action behind the fields of a statement, in the branch with this tag, `more` bytes behind the place of its
/// row. `context` goes behind the label in the message.
pub fn check_action(
    rt: &(impl Abort + AllocGlobal),
    row: &ActionRow,
    context: &str,
    front: &str,
    tag: u8,
    more: usize,
) -> Result<(), Fail> {
    let [which_high, which_low] = row.2.to_be_bytes();
    let document = document_with(rt, front, tag, &[row.1, which_high, which_low, row.3])?;
    let label = row.0;
    check_row(
        rt,
        &format_args!("{label}, {context}"),
        &document,
        row.4.map(|refused| refused.behind(more)),
    );
    Ok(())
}

#[test]
fn values_of_actions(rt: HostRuntime) -> Result<(), Fail> {
    for row in ACTIONS.iter() {
        check_action(&rt, row, "in a THEN action", "n i", 0x13, 0)?;
        check_action(&rt, row, "in an ELSE action", "n i", 0x14, 0)?;
        check_action(&rt, row, "in a second THEN action", "n i t", 0x13, 7)?;
        check_action(
            &rt,
            row,
            "in an ELSE action behind a THEN action",
            "n i t",
            0x14,
            7,
        )?;
    }
    Ok(())
}
