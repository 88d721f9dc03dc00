// What is done in both processors, and what that is in each.
ghost use Rattle.std.specs.Prelude.{◌≡◌};
ghost use Rattle.rules.specs.Reordering.{answered};
ghost use Rattle.rules.specs.Calls.{Rule};
ghost use Rattle.processor.specs.States.{state};
ghost use Rattle.compare.specs.Steps.{call_meant, first_call, second_call, ForScan, Mapped};

use cells::store::CellStore;
use processor::parts::Processor;
use tables::refusal::Refusal;
use tables::statement::Name;

/// A call of a processor: a scan, with a frame or with a frame for each of two processors, a switch of a name by a character, or
/// a restart.
#[derive(Clone, Copy)]
pub enum Call<F> {
    Scan(F),
    Switch(Name, char),
    Restart,
}

/// One step: a scan with a frame for each processor, or the same switch or restart in both.
pub type Step<'a> = Call<(&'a [u8], &'a [u8])>;

impl<F> Call<F> {
    // The same call, where a scan has what the change makes of what it had.
    fn map<G, M: FnOnce(F) -> G + Drop>(self, change: M) -> Call<G>
        requires { ForScan self (M.pre change) }
        ensures { Mapped (M.post change) self result }
    {
        match self {
            Call::Scan(frame) => Call::Scan(change(frame)),
            Call::Switch(name, character) => Call::Switch(name, character),
            Call::Restart => Call::Restart,
        }
    }
}

impl<'a> Step<'a> {
    /// What the step is in the first processor.
    pub fn first(self) -> Call<&'a [u8]>
        ensures { call_meant result ≡ first_call self.entry }
    {
        self.map(|(first, _)| first)
    }

    /// What the step is in the second processor.
    pub fn second(self) -> Call<&'a [u8]>
        ensures { call_meant result ≡ second_call self.entry }
    {
        self.map(|(_, second)| second)
    }
}

/// Makes a call.
pub fn perform<S: CellStore>(
    processor: &mut Processor<S>,
    call: Call<&[u8]>,
) -> Result<usize, Refusal>
    ensures { Rule (call_meant call.entry) (state S.cells processor.old) (answered result) (state S.cells processor.new) }
{
    // Calls are data that a tool writes down, and this is the one match that makes them.
    match call {
        Call::Scan(frame) => processor.scan(frame),
        Call::Switch(name, character) => processor.switch(name, character),
        Call::Restart => Ok(processor.restart()),
    }
}
