// The fields of a body, one after another.
ghost use Rattle.std.specs.Prelude.{◌≡◌, ℕ, ◌+◌, ◌^◌, ◌<◌, [], ◌∷◌, length, MatchOption};
ghost use Rattle.std.specs.Iterator.{at_most};
ghost use Rattle.documents.specs.Fields.{pieces, field, cut};

use crate::field::{Field, FieldKind, HEAD};
use tables::refusal::Refusal;

/// The fields of a body that are still to be read. Past what is no field there are none.
#[derive(Drop)]
pub(crate) struct Fields<'a, K> {
    // Where the first byte of `rest` stands.
    place: usize,
    // The kind of the last field that was read.
    before: Option<K>,
    rest: &'a [u8],
    ghost fits: { place + length rest.now < 2 ^ 64 },
}

// The tag and the body of the field at the front of some bytes, and the bytes behind it, if the field is whole.
fn split_field(bytes: &[u8]) -> Option<(u8, &[u8], &[u8])>
    requires { 0 < length bytes.now }
    ensures { MatchOption result ((place : ℕ) → pieces place 0 bytes.now ≡ cut place ∷ [])
        (λ f. (3 + length f.1.now + length f.2.now ≡ length bytes.now)
        × ((place : ℕ) → pieces place 0 bytes.now ≡ field place f.0 f.1.now ∷ pieces (place + (3 + length f.1.now)) 0 f.2.now)) }
{
    let [tag, high, low, after @ ..] = bytes else {
        return None;
    };
    let size = u16::from_be_bytes([*high, *low]);
    let (body, rest) = after.split_at_checked(usize::from(size))?;
    Some((*tag, body, rest))
}

impl<'a, K: FieldKind> Fields<'a, K> {
    ghost use Rattle.std.specs.Prelude.{None, Some};
    ghost use Rattle.documents.specs.Reads.{NextField};

    /// The fields of the bytes from `place` on.
    pub(crate) fn new(place: usize, rest: &'a [u8]) -> Fields<'a, K>
        requires { place + length rest.now < 2 ^ 64 }
        ensures start { result.place ≡ place }
        ensures first { result.before ≡ None }
        ensures all { result.rest.now ≡ rest.now }
    {
        Fields {
            place,
            before: None,
            rest,
        }
    }

    // The field at the front of what is left.
    fn front(&mut self) -> Result<Field<'a, K>, Refusal>
        requires { 0 < length self.old.rest.now }
        ensures { NextField K.coded K.cases self.old (Some result) self.new }
    {
        let place = self.place;
        let bytes = self.rest;
        self.rest = &[];
        let Some((tag, body, rest)) = split_field(bytes) else {
            return Err(Refusal::Truncated(place));
        };
        let Some(kind) = K::with_code(tag) else {
            return Err(Refusal::NotDue(place));
        };
        let field = Field {
            place,
            before: self.before,
            kind,
            body,
        };
        *self = Fields {
            place: place + HEAD + body.len(),
            before: Some(kind),
            rest,
        };
        Ok(field)
    }
}

// The bound 'static, which every kind meets, is what the default `size_hint` asks for.
impl<'a, K: FieldKind + 'static> Iterator for Fields<'a, K> {
    type Item = Result<Field<'a, K>, Refusal>;

    ghost use Rattle.documents.specs.Reads.{NextField};

    ghost next_gives = { NextField K.coded K.cases };

    ghost remaining = { λ s. at_most (length s.rest.now) };

    fn next(&mut self) -> Option<Result<Field<'a, K>, Refusal>> {
        if self.rest.is_empty() {
            return None;
        }
        Some(self.front())
    }
}
