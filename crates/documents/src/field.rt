// Fields: a tag, a length of two bytes, the high one first, and a body.
ghost use Rattle.std.specs.Prelude.{◌≡◌, ◌≢◌, ◌+◌, ◌^◌, ◌<◌, ◌≤◌, true, false, ◌⊎◌, Some, length, MatchResult};
ghost use Rattle.std.specs.Ordering.{nat_cmp};
ghost use Rattle.std.proofs.Common.{rules};

use tables::code::Cases;
use tables::codes::tags::{DocumentField, StatementField};
use tables::refusal::Refusal;

/// The kinds of field that a body may hold: they are ordered as their tags are, and 0 is no tag.
pub(crate) trait FieldKind: Cases + PartialOrd {
    ghost in_order: { (a b : Self) → Self.partial_cmp a b ≡ Some (nat_cmp (Self.coded a) (Self.coded b)) };

    ghost from_one: { (a : Self) → 1 ≤ Self.coded a };
}

impl FieldKind for DocumentField {
    ghost in_order = { λ a b. Prim.search rules };

    ghost from_one = { λ a. Prim.search rules };
}

impl FieldKind for StatementField {
    ghost in_order = { λ a b. Prim.search rules };

    ghost from_one = { λ a. Prim.search rules };
}

/// The bytes of a field before its body: its tag and its length.
pub(crate) const HEAD: usize = 3;

/// A field of a body: the place of its first byte in the document, the kind of the field before it, and what it holds.
#[derive(Drop)]
pub(crate) struct Field<'a, K> {
    pub place: usize,
    pub before: Option<K>,
    pub kind: K,
    pub body: &'a [u8],
    ghost fits: { place + 3 + length body.now < 2 ^ 64 },
}

impl<'a, K: FieldKind> Field<'a, K> {
    ghost use Rattle.documents.specs.Reads.{follows};

    /// Whether the field before is of a kind from `first` to this field's own.
    pub(crate) fn follows(&self, first: K) -> bool
        ensures { result ≡ follows K.coded first self.now }
    {
        // With `is_some_and` the proof does not close.
        match self.before {
            Some(before) => first <= before && before <= self.kind,
            None => false,
        }
    }

    /// The body of a field that is due, where it has N bytes.
    pub(crate) fn body_if_due<const N: usize>(&self, due: bool) -> Result<&'a [u8; N], Refusal>
        ensures { let f = self.now in MatchResult result
            (λ body. (due ≡ true) × (length f.body.now ≡ N) × (body.now ≡ f.body.now))
            (λ e. ((due ≡ false) ⊎ (length f.body.now ≢ N)) × (e ≡ Refusal.NotDue f.place)) }
    {
        match self.body.as_array() {
            Some(body) if due => Ok(body),
            _ => Err(Refusal::NotDue(self.place)),
        }
    }
}
