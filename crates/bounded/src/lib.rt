// At most N items in memory of their own, in the order in which they were added: what embedded Rust knows as `ArrayVec`.
// It knows nothing of what it holds, and never allocates.
#![tactic(auto)]

ghost use Rattle.std.specs.Prelude.{◌≡◌, ◌≤◌, min, [], ◌∷◌, ◌++◌, length, slice_set};
ghost use Rattle.bounded.specs.Held.{held, Pushed};

// An array with a length beside it, since no list here may use a heap; the kit's `ArrayVec` is not `Copy`, and its copies can fail.
#[derive(Clone, Copy)]
pub struct BoundedList<T, const N: usize> {
    items: [T; N],
    len: usize,
}

impl<T: Copy, const N: usize> BoundedList<T, N> {
    /// An empty list. The spare memory is filled with `filler`, which no reader of the list sees.
    pub fn new(filler: T) -> Self
        ensures { held result ≡ [] }
    {
        BoundedList {
            items: [filler; N],
            len: 0,
        }
    }

    /// Adds an item at the end, or gives it back where the list is full.
    pub fn push(&mut self, item: T) -> Result<(), T>
        ensures { Pushed N (held self.old) item (held self.new) result }
    {
        let end = self.len;
        if end >= self.room() {
            return Err(item);
        }
        self.items[end] = item;
        self.len = end + 1;
        Ok(())
    }

    /// Puts an item in the place of another, counted from 0; past the end of the list nothing changes.
    pub fn replace(&mut self, at: usize, item: T)
        ensures { held self.new ≡ slice_set (held self.old) at item }
    {
        if at < self.filled() {
            self.items[at] = item;
        }
    }

    /// The items, in order.
    pub fn as_slice(&self) -> &[T]
        ensures value { result.now ≡ held self.now }
        ensures bound { length result.now ≤ N }
    {
        let n = self.filled();
        &self.items[..n]
    }

    /// How many items there are.
    pub fn len(&self) -> usize
        ensures value { result ≡ length (held self.now) }
        ensures bound { result ≤ N }
    {
        self.as_slice().len()
    }

    // How much of the memory is in use.
    fn filled(&self) -> usize
        ensures value { result ≡ min self.now.len N }
        ensures places { length self.now.items ≡ N }
    {
        self.len.min(self.room())
    }

    // N, and that the memory has that many places.
    fn room(&self) -> usize
        ensures value { result ≡ N }
        ensures places { length self.now.items ≡ N }
    {
        let all = &self.items[..];
        all.len()
    }
}
