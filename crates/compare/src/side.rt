// One of the two processors that are compared.
ghost use Rattle.std.specs.Prelude.{◌≡◌, None};
ghost use Rattle.rules.specs.Reordering.{answered};
ghost use Rattle.rules.specs.Calls.{Rule};
ghost use Rattle.rules.specs.Runs.{last_frame};
ghost use Rattle.processor.specs.States.{state};
ghost use Rattle.compare.specs.Steps.{call_meant};
ghost use Rattle.compare.specs.Frames.{frame_of};

use crate::last_frame::LastFrame;
use crate::step::{Call, perform};
use cells::store::CellStore;
use processor::parts::Processor;
use tables::refusal::Refusal;

/// A processor, and the frame that its run accepted last.
pub(crate) struct Side<'p, 'f, S> {
    pub(crate) processor: &'p mut Processor<S>,
    pub(crate) last_frame: LastFrame<'f>,
}

impl<'p, 'f, S: CellStore> Side<'p, 'f, S> {
    ghost use Rattle.compare.specs.Sides.{state_of};

    // A processor whose run has accepted no frame yet.
    pub(crate) fn new(processor: &'p mut Processor<S>) -> Self
        ensures same { result.processor.ghost_name ≡ processor.entry.ghost_name }
        ensures state { state_of S.cells result ≡ state S.cells processor.old }
        ensures frame { frame_of result.last_frame ≡ None }
    {
        Side {
            processor,
            last_frame: LastFrame::none(),
        }
    }

    // Makes a call, and keeps its frame if it is accepted.
    pub(crate) fn perform(&mut self, call: Call<&'f [u8]>) -> Result<usize, Refusal>
        ensures same { self.new.processor.ghost_name ≡ self.old.processor.ghost_name }
        ensures rule { Rule (call_meant call.entry) (state_of S.cells self.old) (answered result) (state_of S.cells self.new) }
        ensures frame { frame_of self.new.last_frame ≡ last_frame (frame_of self.old.last_frame) (call_meant call.entry) }
    {
        self.last_frame.note(call);
        perform(self.processor, call)
    }
}

// Written by hand: its clause says that the processor stays as it is, which a derived drop leaves open.
impl<S> Drop for Side<'_, '_, S> {
    fn drop(self)
        ensures { self.exit.0.now ≡ self.entry.processor.now }
    {
        let Side {
            processor: _,
            last_frame: _,
        } = self;
    }
}
