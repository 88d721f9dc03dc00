// Places: the cells of any store, and the flags.
ghost use Rattle.std.specs.Prelude.{◌≡◌};
ghost use Rattle.tables.specs.Lists.{some};
ghost use Rattle.tables.specs.Spans.{span_cells};
ghost use Rattle.tables.specs.States.{is_on};
ghost use Rattle.rules.specs.Memory.{place_on, place_set};
ghost use Rattle.rules.specs.Acting.{writes, after_writes};
ghost use Rattle.memory.specs.Flags.{places_of};

use cells::store::CellStore;
use memory::flags::FlagTable;
use tables::place::{Buffer, Place, State};
use tables::span::CellSpan;

/// A store's cells, and the flags.
#[derive(Drop)]
pub struct Places<S> {
    pub store: S,
    pub flags: FlagTable,
}

// Whether a place is ON.
pub(crate) fn is_place_on<S: CellStore>(store: &S, flags: &FlagTable, place: Place) -> bool
    ensures { result ≡ place_on (places_of (S.cells store.now) flags.now) place }
{
    bool::from(match place {
        Place::InputCell(code) => store.read(Buffer::Input, code),
        Place::OutputCell(code) => store.read(Buffer::Output, code),
        Place::Flag(number) => flags.read(number),
    })
}

// Sets one place, and no other.
pub(crate) fn set_place<S: CellStore>(
    store: &mut S,
    flags: &mut FlagTable,
    place: Place,
    state: State,
)
    ensures { places_of (S.cells store.new) flags.new ≡ place_set place (is_on state) (places_of (S.cells store.old) flags.old) }
{
    match place {
        Place::InputCell(code) => store.write(Buffer::Input, code, state),
        Place::OutputCell(code) => store.write(Buffer::Output, code, state),
        Place::Flag(number) => flags.write(number, state),
    }
}

// Whether some cell of a span is ON.
pub(crate) fn is_some_on<S: CellStore>(store: &S, flags: &FlagTable, span: CellSpan) -> bool
    ensures { result ≡ some (place_on (places_of (S.cells store.now) flags.now)) (span_cells span) }
{
    span.into_iter()
        .any(|place| is_place_on(store, flags, place))
}

// Sets each cell of a span.
pub(crate) fn set_all<S: CellStore>(
    store: &mut S,
    flags: &mut FlagTable,
    span: CellSpan,
    state: State,
)
    ensures { places_of (S.cells store.new) flags.new ≡ after_writes (writes (span_cells span) (is_on state)) (places_of (S.cells store.old) flags.old) }
{
    for place in span {
        set_place(store, flags, place, state);
    }
}
