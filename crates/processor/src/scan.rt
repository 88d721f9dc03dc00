// One scan.
ghost use Rattle.rules.specs.Reordering.{answered};
ghost use Rattle.rules.specs.Calls.{Rule, scan as scan_call};
ghost use Rattle.processor.specs.States.{state};

use crate::parts::Processor;
use cells::store::CellStore;
use scanning::frame::Frame;
use scanning::scan::Scan;
use tables::refusal::Refusal;

impl<S: CellStore> Processor<S> {
    /// Scans one frame: the store takes its cells, every enabled statement runs in table order, and the answer is how many were
    /// enabled. Bytes that are no frame are refused and change nothing.
    pub fn scan(&mut self, frame: &[u8]) -> Result<usize, Refusal>
        ensures { Rule (scan_call frame.now) (state S.cells self.old) (answered result) (state S.cells self.new) }
    {
        let frame = Frame::try_from(frame)?;
        self.memory.take(&frame);
        let scan = Scan::new(&self.table, frame);
        self.memory.run_all(&scan);
        Ok(scan.enabled_count())
    }
}
