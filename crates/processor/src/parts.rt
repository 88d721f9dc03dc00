// What a processor is made of.
use scanning::turn::Memory;
use tables::table::Table;

/// A processor over a store of cells.
#[derive(Drop)]
pub struct Processor<S> {
    pub(crate) table: Table,
    pub(crate) memory: Memory<S>,
}
