// Steps in words.
use listing::in_words::InWords;
use listing::words::state_label;
use std::fmt;
use store_steps::step::Step;

/// What a step does, in words.
#[derive(Drop)]
pub struct StepWords(pub Step);

impl fmt::Display for StepWords {
    fn fmt<W: fmt::Write>(&self, f: &mut fmt::Formatter<W>) -> fmt::Result {
        match self.0 {
            Step::Clear => write!(f, "clear"),
            Step::Take(count) => write!(f, "take {count} bytes"),
            Step::Read(buffer, code) => write!(f, "read {}", InWords(&buffer.cell(code))),
            Step::Write(buffer, code, state) => {
                let cell = buffer.cell(code);
                write!(f, "write {} {}", InWords(&cell), state_label(state))
            }
        }
    }
}
