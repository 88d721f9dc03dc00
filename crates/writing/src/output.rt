// A caller's buffer, into which bytes, numbers, names and fields are put one behind the other.
ghost use Rattle.std.specs.Prelude.{◌≡◌, ℕ, ◌≤◌, [], ◌∷◌, map, length};
ghost use Rattle.writing.specs.Bytes.{two, field_bytes, fields_bytes};

use crate::body::Body;
use tables::code::Coded;
use tables::named::Named;

// The length stands beside a caller's own bytes: a list could not grow here without a heap.
/// A buffer, and how many bytes are written from its start on.
#[derive(Drop)]
pub(crate) struct Output<'a> {
    buffer: &'a mut [u8],
    len: usize,
    ghost within: { len ≤ length buffer.now },
}

impl<'a> Output<'a> {
    ghost use Rattle.writing.specs.Output.{rest, HasRoom, Wrote};

    /// Nothing is written yet.
    pub(crate) fn new(buffer: &'a mut [u8]) -> Output<'a>
        ensures same_buffer { result.buffer.ghost_name ≡ buffer.entry.ghost_name }
        ensures empty { result.len ≡ 0 }
        ensures room { rest result ≡ buffer.old }
    {
        Output { buffer, len: 0 }
    }

    /// How many bytes are written.
    pub(crate) fn len(&self) -> usize
        ensures { result ≡ self.now.len }
    {
        self.len
    }

    /// Puts bytes.
    pub(crate) fn put(&mut self, bytes: &[u8])
        requires { HasRoom self.old bytes.now }
        ensures { Wrote self.old bytes.now self.new }
    {
        let start = self.len;
        let end = start + bytes.len();
        let buffer = &mut *self.buffer;
        buffer[start..end].copy_from_slice(bytes);
        self.len = end;
    }

    // Puts one byte. With each name put as a slice of one, plans of many names took over one and a half times the instructions.
    fn put_byte(&mut self, byte: u8)
        requires { HasRoom self.old (byte ∷ []) }
        ensures { Wrote self.old (byte ∷ []) self.new }
    {
        let at = self.len;
        let buffer = &mut *self.buffer;
        buffer[at] = byte;
        self.len = at + 1;
    }

    /// Puts a number of two bytes, the high one first.
    pub(crate) fn put_u16(&mut self, n: u16)
        requires { HasRoom self.old (two n) }
        ensures { Wrote self.old (two n) self.new }
    {
        self.put(&n.to_be_bytes());
    }

    // Puts the byte of a name.
    fn put_name<T: Named>(&mut self, item: &T)
        requires { HasRoom self.old (T.Named.number item.now ∷ []) }
        ensures { Wrote self.old (T.Named.number item.now ∷ []) self.new }
    {
        self.put_byte(item.name().0);
    }

    /// Puts a byte for each name.
    pub(crate) fn put_names<T: Named>(&mut self, items: &[T])
        requires { HasRoom self.old (map T.Named.number items.now) }
        ensures { Wrote self.old (map T.Named.number items.now) self.new }
    {
        for item in items {
            self.put_name(item);
        }
    }

    /// Puts a field: its tag, the length of its body, its body.
    pub(crate) fn put_field<F: Coded, T: Body>(&mut self, field: F, item: &T)
        requires { HasRoom self.old (field_bytes (F.Coded.coded field) (T.Body.body item.now)) }
        ensures { Wrote self.old (field_bytes (F.Coded.coded field) (T.Body.body item.now)) self.new }
    {
        self.put(&[field.code()]);
        self.put_u16(item.size() as u16);
        item.put_body(self);
    }

    /// Puts a field for each item.
    pub(crate) fn put_fields<F: Coded, T: Body>(&mut self, field: F, items: &[T])
        requires { HasRoom self.old (fields_bytes (F.Coded.coded field) T.Body.body items.now) }
        ensures { Wrote self.old (fields_bytes (F.Coded.coded field) T.Body.body items.now) self.new }
    {
        for item in items {
            self.put_field(field, item);
        }
    }
}
