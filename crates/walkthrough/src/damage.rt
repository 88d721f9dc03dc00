// Ways to damage the document.
ghost use Rattle.std.specs.Prelude.{◌≡◌, ◌+◌, IfOk};
ghost use Rattle.std.specs.List.{splice};

use std::alloc::{AllocError, Global};

/// Some bytes of the document taken out at a place, and others put there.
#[derive(Clone, Copy)]
pub struct Damage {
    pub what: &'static str,
    pub place: usize,
    pub taken: usize,
    pub put: &'static [u8],
}

/// Every refusal of a document comes at least once.
pub const DAMAGES: [Damage; 8] = [
    Damage {
        what: "without its last byte",
        place: 228,
        taken: 1,
        put: &[],
    },
    Damage {
        what: "nothing at all",
        place: 0,
        taken: 229,
        put: &[],
    },
    Damage {
        what: "with an action where statement 3 has its test",
        place: 53,
        taken: 1,
        put: &[0x13],
    },
    Damage {
        what: "with nine THEN actions in statement 3",
        place: 43,
        taken: 27,
        put: &NINE_ACTIONS,
    },
    Damage {
        what: "with X for the mark of statement 3",
        place: 52,
        taken: 1,
        put: &[0x58],
    },
    Damage {
        what: "with output cell 768 for 144",
        place: 112,
        taken: 2,
        put: &[0x03, 0x00],
    },
    Damage {
        what: "with a second statement 3, where statement 7 was",
        place: 128,
        taken: 1,
        put: &[0x03],
    },
    Damage {
        what: "with DELAYs of 3 and 2,045 tenths in statement 40",
        place: 111,
        taken: 4,
        put: &[0x07, 0x07, 0xFD, 0x00],
    },
];

// Statement 3 from its length on, 81 bytes, with its action nine times over.
const NINE_ACTIONS: [u8; 83] = [
    0x00, 0x51, // 43
    0x10, 0x00, 0x01, 0x03, // 45
    0x11, 0x00, 0x01, 0x45, // 49
    0x12, 0x00, 0x07, 0x00, 0x06, 0x00, 0x00, 0x02, 0x00, 0x02, // 53
    0x13, 0x00, 0x04, 0x03, 0x00, 0x05, 0x01, // 63
    0x13, 0x00, 0x04, 0x03, 0x00, 0x05, 0x01, // 70
    0x13, 0x00, 0x04, 0x03, 0x00, 0x05, 0x01, // 77
    0x13, 0x00, 0x04, 0x03, 0x00, 0x05, 0x01, // 84
    0x13, 0x00, 0x04, 0x03, 0x00, 0x05, 0x01, // 91
    0x13, 0x00, 0x04, 0x03, 0x00, 0x05, 0x01, // 98
    0x13, 0x00, 0x04, 0x03, 0x00, 0x05, 0x01, // 105
    0x13, 0x00, 0x04, 0x03, 0x00, 0x05, 0x01, // 112
    0x13, 0x00, 0x04, 0x03, 0x00, 0x05, 0x01, // 119: the ninth
];

impl Damage {
    /// The document with that damage.
    pub fn done_to(&self, heap: Global, document: &[u8]) -> Result<Vec<u8>, AllocError>
        ensures { IfOk result (λ v. v.items ≡ splice document.now self.now.place (self.now.place + self.now.taken) self.now.put.now) }
    {
        let mut bytes = Vec::from_slice(heap, document)?;
        let start = self.place.min(bytes.len());
        let end = start + self.taken.min(bytes.len() - start);
        bytes.splice(start..end, self.put.iter().copied())?;
        Ok(bytes)
    }
}
