// What a read answers after a write or a take, whatever the store: each function's contract says it of every store that keeps
// the trait's contracts.
ghost use Rattle.std.specs.Prelude.{◌≡◌, length};
ghost use Rattle.cells.specs.Cells.{cell_bytes, held, taken, written};
ghost use Rattle.cells.specs.Readings.{Different, frame_state, within};

use crate::store::CellStore;
use tables::place::{Buffer, State};

/// What was written is read back; past the buffer's end OFF is.
pub fn written_is_read_back<S: CellStore>(
    store: &mut S,
    buffer: Buffer,
    code: u16,
    state: State,
) -> State
    ensures back { result ≡ within buffer code state }
    ensures after { S.cells store.new ≡ written (S.cells store.old) buffer code state }
{
    store.write(buffer, code, state);
    store.read(buffer, code)
}

/// Writing one cell leaves every other as it was.
pub fn one_write_leaves_every_other<S: CellStore>(
    store: &mut S,
    target: (Buffer, u16),
    state: State,
    another: (Buffer, u16),
) -> State
    ensures left { Different target.0 target.1 another.0 another.1 → result ≡ held (S.cells store.old) another.0 another.1 }
    ensures value { result ≡ held (S.cells store.new) another.0 another.1 }
    ensures after { S.cells store.new ≡ written (S.cells store.old) target.0 target.1 state }
{
    store.write(target.0, target.1, state);
    store.read(another.0, another.1)
}

/// Once 168 bytes have been taken, each cell reads its bit of them.
pub fn taken_frame_is_read<S: CellStore>(
    store: &mut S,
    bytes: &[u8],
    buffer: Buffer,
    code: u16,
) -> State
    ensures from_bytes { length bytes.now ≡ cell_bytes → result ≡ within buffer code (frame_state bytes.now buffer code) }
    ensures value { result ≡ held (S.cells store.new) buffer code }
    ensures after { S.cells store.new ≡ taken (S.cells store.old) bytes.now }
{
    store.take(bytes);
    store.read(buffer, code)
}

/// Two stores whose cells are the same answer every read alike.
pub fn same_cells_read_alike<S: CellStore, Z: CellStore>(
    one: &S,
    other: &Z,
    buffer: Buffer,
    code: u16,
) -> (State, State)
    ensures alike { S.CellStore.cells one.now ≡ Z.CellStore.cells other.now → result.0 ≡ result.1 }
    ensures first { result.0 ≡ held (S.CellStore.cells one.now) buffer code }
    ensures second { result.1 ≡ held (Z.CellStore.cells other.now) buffer code }
{
    (one.read(buffer, code), other.read(buffer, code))
}
