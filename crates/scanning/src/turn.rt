// A statement's turn, and the turns of a whole table.
ghost use Rattle.std.specs.Prelude.{◌≡◌, true, map};
ghost use Rattle.tables.specs.Lists.{every};
ghost use Rattle.tables.specs.Rows.{TableRows, statement_row};
ghost use Rattle.tables.specs.Rules.{statement_keeps};
ghost use Rattle.rules.specs.Memory.{blank};
ghost use Rattle.rules.specs.Testing.{seen, holds as holds_in};
ghost use Rattle.rules.specs.Acting.{written_at, after_writes};
ghost use Rattle.rules.specs.Scanning.{actions as actions_of, branch_by, turn, turns, frame_taken};
ghost use Rattle.memory.specs.Flags.{places_of};
ghost use Rattle.scanning.specs.EnabledNames.{is_there, NamesOf, OwnNameOf, EnabledBy};
ghost use Rattle.scanning.specs.Memories.{memory_of, memory_in};
ghost use Rattle.scanning.specs.Scans.{table_of, frame_of};

use crate::acting::{BranchActions, act};
use crate::frame::Frame;
use crate::names::EnabledNames;
use crate::places::Places;
use crate::scan::Scan;
use crate::testing::holds;
use cells::store::CellStore;
use memory::flags::FlagTable;
use memory::rows::WaitTable;
use rules::branch::Branch;
use tables::statement::Statement;
use tables::time::Tenths;

// The branch that a statement takes.
fn branch_now<S: CellStore>(
    statement: &Statement,
    frame: &Frame,
    enabled: &EnabledNames,
    store: &S,
    flags: &FlagTable,
) -> Branch
    ensures { result ≡ branch_by (is_there enabled.now (statement_row statement.now).name)
        (holds_in (seen frame.now (is_there enabled.now) (places_of (S.cells store.now) flags.now)) (statement_row statement.now).tests) }
{
    if !enabled.contains(statement.name) {
        return Branch::Neither;
    }
    if holds(statement.tests.as_slice(), frame, enabled, store, flags) {
        Branch::Then
    } else {
        Branch::Else
    }
}

// What a branch of a statement does: those of its actions run whose wait is at most the count.
fn act_on<S: CellStore>(
    statement: &Statement,
    branch: Branch,
    count: Tenths,
    store: &mut S,
    flags: &mut FlagTable,
)
    requires { statement_keeps (statement_row statement.now) ≡ true }
    ensures { places_of (S.cells store.new) flags.new
        ≡ after_writes (written_at count.0 (actions_of (statement_row statement.now) branch)) (places_of (S.cells store.old) flags.old) }
{
    act(BranchActions::of(statement, branch), count, store, flags);
}

// One statement's turn: it takes its branch, steps its wait record and acts.
fn run_statement<S: CellStore>(
    statement: &Statement,
    frame: &Frame,
    enabled: &EnabledNames,
    store: &mut S,
    flags: &mut FlagTable,
    waits: &mut WaitTable,
)
    requires { statement_keeps (statement_row statement.now) ≡ true }
    ensures { (t : TableRows) → NamesOf t frame.now enabled.now → OwnNameOf t frame.now enabled.now (statement_row statement.now)
        → memory_of (S.cells store.new) flags.new waits.new
        ≡ turn t frame.now (statement_row statement.now) (memory_of (S.cells store.old) flags.old waits.old) }
{
    let branch = branch_now(statement, frame, enabled, store, flags);
    let count = waits.step(statement.name, branch);
    act_on(statement, branch, count, store, flags);
}

/// Every statement in its turn, from the top, each on what those above it left.
pub fn run_all<S: CellStore>(
    statements: &[Statement],
    frame: &Frame,
    enabled: &EnabledNames,
    store: &mut S,
    flags: &mut FlagTable,
    waits: &mut WaitTable,
)
    requires { every statement_keeps (map statement_row statements.now) ≡ true }
    ensures { (t : TableRows) → t.statements ≡ map statement_row statements.now → EnabledBy t frame.now enabled.now
        → memory_of (S.cells store.new) flags.new waits.new
        ≡ turns t frame.now t.statements (memory_of (S.cells store.old) flags.old waits.old) }
{
    for statement in statements {
        run_statement(statement, frame, enabled, store, flags, waits);
    }
}

/// What a processor remembers from scan to scan.
#[derive(Drop)]
pub struct Memory<S> {
    pub places: Places<S>,
    pub waits: WaitTable,
}

impl<S: CellStore> Memory<S> {
    /// All cells and flags OFF, and every name without a branch.
    #[tactic(auto, unfolding(rules::specs::Memory::blank))]
    pub fn new(mut store: S) -> Self
        ensures { memory_in S.cells result ≡ blank }
    {
        store.clear();
        Memory {
            places: Places {
                store,
                flags: FlagTable::new(),
            },
            waits: WaitTable::new(),
        }
    }

    /// Turns all cells and flags OFF, and makes every name hold no branch.
    #[tactic(auto, unfolding(rules::specs::Memory::blank))]
    pub fn clear(&mut self)
        ensures { memory_in S.cells self.new ≡ blank }
    {
        self.places.store.clear();
        self.places.flags.clear();
        self.waits.clear();
    }

    /// The store takes the cells of a frame.
    pub fn take(&mut self, frame: &Frame)
        ensures { memory_in S.cells self.new ≡ frame_taken frame.now (memory_in S.cells self.old) }
    {
        self.places.store.take(frame.cell_bytes());
    }

    /// Every statement of a scan's table in its turn, from the top, each on what those above it left.
    pub fn run_all(&mut self, scan: &Scan)
        ensures { memory_in S.cells self.new ≡ turns (table_of scan.now) (frame_of scan.now) (table_of scan.now).statements (memory_in S.cells self.old) }
    {
        run_all(
            scan.table.statements(),
            &scan.frame,
            &scan.enabled,
            &mut self.places.store,
            &mut self.places.flags,
            &mut self.waits,
        );
    }
}
