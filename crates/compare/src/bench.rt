// Two processors given the same steps.
ghost use Rattle.std.specs.Prelude.{◌≡◌};
ghost use Rattle.tables.specs.Rows.{TableRows};
ghost use Rattle.rules.specs.Calls.{fresh};
ghost use Rattle.processor.specs.States.{state};
ghost use Rattle.compare.specs.Frames.{frame_of};
ghost use Rattle.compare.specs.Sides.{state_of};
ghost use Rattle.compare.specs.Comparing.{Stepped, Compared, Comparison};

use crate::difference::difference;
use crate::kind::{Difference, Kind};
use crate::side::Side;
use crate::step::Step;
use cells::store::CellStore;
use documents::document::read_document;
use processor::parts::Processor;
use tables::refusal::Refusal;

/// Which document was refused, and why.
#[derive(Clone, Copy, PartialEq, Eq)]
pub enum RefusedDocument {
    First(Refusal),
    Second(Refusal),
}

// Makes one step in both, and says what differs after it.
fn step_both<'f, P: CellStore, Q: CellStore>(
    first: &mut Side<'_, 'f, P>,
    second: &mut Side<'_, 'f, Q>,
    step: Step<'f>,
) -> Option<Kind>
    ensures same_first { first.new.processor.ghost_name ≡ first.old.processor.ghost_name }
    ensures same_second { second.new.processor.ghost_name ≡ second.old.processor.ghost_name }
    ensures stepped { Stepped (frame_of first.old.last_frame) (frame_of second.old.last_frame) step.entry
        (state_of P.CellStore.cells first.old) (state_of Q.CellStore.cells second.old)
        (state_of P.CellStore.cells first.new) (state_of Q.CellStore.cells second.new)
        (frame_of first.new.last_frame) (frame_of second.new.last_frame) result }
{
    let here = first.perform(step.first());
    let there = second.perform(step.second());
    difference(first, second, here, there)
}

// Makes every step in both, and says which is the first with a difference.
fn run_both<P: CellStore, Q: CellStore>(
    first: &mut Processor<P>,
    second: &mut Processor<Q>,
    steps: &[Step],
) -> Option<Difference>
    ensures { (t u : TableRows) → state P.CellStore.cells first.old ≡ fresh t → state Q.CellStore.cells second.old ≡ fresh u
        → Compared t u steps.now (state P.CellStore.cells first.new) (state Q.CellStore.cells second.new) result }
{
    let mut first = Side::new(first);
    let mut second = Side::new(second);
    let mut found = None;
    for (at, step) in steps.iter().enumerate() {
        let kind = step_both(&mut first, &mut second, *step);
        found = found.or(kind.map(|kind| Difference { step: at, kind }));
    }
    found
}

/// Loads a document into each of two processors, makes every step in both, and answers the first step after which they differ
/// and what differs, or none. A refused document is answered, the first before the second, and then neither has changed. Where
/// one table is a rearrangement of the other and the frames of each step are alike, the answer is none, and all that holds of
/// runs of rearranged tables holds of these.
pub fn compare<P: CellStore, Q: CellStore>(
    first: &mut Processor<P>,
    second: &mut Processor<Q>,
    first_document: &[u8],
    second_document: &[u8],
    steps: &[Step],
) -> Result<Option<Difference>, RefusedDocument>
    ensures { Comparison first_document.now second_document.now steps.now
        (state P.CellStore.cells first.old) (state Q.CellStore.cells second.old)
        (state P.CellStore.cells first.new) (state Q.CellStore.cells second.new) result }
{
    let first_table = read_document(first_document).map_err(RefusedDocument::First)?;
    let second_table = read_document(second_document).map_err(RefusedDocument::Second)?;
    first.load_table(first_table);
    second.load_table(second_table);
    Ok(run_both(first, second, steps))
}
