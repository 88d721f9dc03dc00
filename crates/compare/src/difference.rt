// What may differ after a step.
ghost use Rattle.rules.specs.Reordering.{answered};
ghost use Rattle.compare.specs.Frames.{frame_of};
ghost use Rattle.compare.specs.Sides.{state_of};
ghost use Rattle.compare.specs.Differences.{FoundAfter};

use crate::cells_alike::are_cells_alike;
use crate::kind::Kind;
use crate::side::Side;
use cells::store::CellStore;
use tables::refusal::Refusal;

// The difference of two processors after a step, if there is one: of the answers, else of the flags, else of the wait records,
// else of the cells.
pub(crate) fn difference<P: CellStore, Q: CellStore>(
    first: &Side<P>,
    second: &Side<Q>,
    here: Result<usize, Refusal>,
    there: Result<usize, Refusal>,
) -> Option<Kind>
    ensures { FoundAfter (frame_of first.now.last_frame) (frame_of second.now.last_frame) (answered here) (answered there)
        (state_of P.CellStore.cells first.now) (state_of Q.CellStore.cells second.now) result }
{
    // Not a table of tests: each is made only where those before it found nothing.
    if here != there {
        Some(Kind::Answer)
    } else if !first.processor.same_flags(second.processor) {
        Some(Kind::Flag)
    } else if !first.processor.same_waits(second.processor) {
        Some(Kind::WaitRecord)
    } else if !are_cells_alike(first, second) {
        Some(Kind::Cell)
    } else {
        None
    }
}
