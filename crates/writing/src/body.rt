// What stands in a field: how many bytes its body takes, and those bytes put into an output.
ghost use Rattle.std.specs.Prelude.{◌≡◌, ℕ, ◌+◌, ◌^◌, ◌<◌, ◌≤◌, List, length};
ghost use Rattle.writing.specs.Bytes.{fields_bytes};
ghost use Rattle.writing.specs.Output.{HasRoom, Wrote};

use crate::output::Output;

/// What is written as the body of a field.
pub(crate) trait Body {
    ghost body: { Self → List ℕ };

    // Known before the body is put, since the length stands in front of it and a buffer that is too short is not touched.
    fn size(&self) -> usize
        ensures value { result ≡ length (body self.now) }
        ensures bound { result < 65536 };

    fn put_body(&self, output: &mut Output)
        requires { HasRoom output.old (body self.now) }
        ensures { Wrote output.old (body self.now) output.new };
}

/// How many bytes a field takes: its tag, two for the length of its body, its body.
pub(crate) fn field_size<T: Body>(item: &T) -> usize
    ensures value { result ≡ 3 + length (T.Body.body item.now) }
    ensures bound { result < 65539 }
{
    3 + item.size()
}

/// How many bytes the fields of some items take, whatever their tag.
pub(crate) fn fields_size<T: Body>(items: &[T]) -> usize
    requires { length items.now ≤ 65536 }
    ensures value { (tag : ℕ) → result ≡ length (fields_bytes tag T.Body.body items.now) }
    ensures bound { result < 2 ^ 33 }
{
    items.iter().map(field_size).sum()
}
