// One scan: which statements are enabled in it, and whether tests hold. Nothing here can set a place: places are only read.
ghost use Rattle.std.specs.Prelude.{◌≡◌};
ghost use Rattle.tables.specs.Contents.{rows_of};
ghost use Rattle.scanning.specs.EnabledNames.{EnabledBy};

use crate::enabling::enabled_names;
use crate::frame::Frame;
use crate::names::EnabledNames;
use crate::places::Places;
use crate::testing::holds;
use cells::store::CellStore;
use tables::statement::Name;
use tables::table::Table;
use tables::test::JoinedTest;

/// A frame for a table, and the names that they enable.
#[derive(Drop)]
pub struct Scan<'a> {
    pub(crate) table: &'a Table,
    pub(crate) frame: Frame<'a>,
    pub(crate) enabled: EnabledNames,
    ghost named: { EnabledBy (rows_of table.now) frame enabled },
}

impl<'a> Scan<'a> {
    ghost use Rattle.rules.specs.Frames.{setting};
    ghost use Rattle.rules.specs.Enabling.{enabled_count, name_enabled};
    ghost use Rattle.rules.specs.Testing.{view, holds as holds_in};
    ghost use Rattle.scanning.specs.Memories.{places_in};
    ghost use Rattle.scanning.specs.Scans.{table_of, frame_of};

    /// The scan of a table with a frame.
    pub fn new(table: &'a Table, frame: Frame<'a>) -> Self
        ensures table { table_of result ≡ rows_of table.now }
        ensures frame { frame_of result ≡ frame.entry }
    {
        let enabled = enabled_names(table, &frame);
        Scan {
            table,
            frame,
            enabled,
        }
    }

    /// How many statements are enabled.
    pub fn enabled_count(&self) -> usize
        ensures { result ≡ enabled_count (table_of self.now).plans (setting (frame_of self.now)) (table_of self.now).statements }
    {
        self.enabled.count()
    }

    /// Whether a name is that of an enabled statement.
    pub fn enables(&self, name: Name) -> bool
        ensures { result ≡ name_enabled (table_of self.now).plans (setting (frame_of self.now)) (table_of self.now).statements name.0 }
    {
        self.enabled.contains(name)
    }

    /// Whether tests hold, joined from the top, in this scan and on places as they stand.
    pub fn holds<S: CellStore>(&self, tests: &[JoinedTest], places: &Places<S>) -> bool
        ensures { result ≡ holds_in (view (table_of self.now) (frame_of self.now) (places_in S.cells places.now)) tests.now }
    {
        holds(
            tests,
            &self.frame,
            &self.enabled,
            &places.store,
            &places.flags,
        )
    }
}
