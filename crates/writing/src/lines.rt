// Single bytes, tests and actions as the bodies of fields.
ghost use Rattle.std.specs.Prelude.{[], ◌∷◌};
ghost use Rattle.writing.specs.Bytes.{test_body, action_body};

use crate::body::Body;
use crate::output::Output;
use tables::action::Action;
use tables::code::Coded;
use tables::codes::lines::{ActionCodes, TestCodes};
use tables::test::JoinedTest;

// A name, a mark or a version.
impl Body for u8 {
    ghost body = { λ b. b ∷ [] };

    fn size(&self) -> usize {
        1
    }

    fn put_body(&self, output: &mut Output) {
        output.put(&[*self]);
    }
}

impl Body for JoinedTest {
    ghost body = { test_body };

    fn size(&self) -> usize {
        7
    }

    fn put_body(&self, output: &mut Output) {
        let test = TestCodes::from(self.test);
        output.put(&[self.join.code(), test.kind]);
        output.put_u16(test.which);
        output.put(&[test.relation]);
        output.put_u16(test.entry);
    }
}

impl Body for Action {
    ghost body = { action_body };

    fn size(&self) -> usize {
        4
    }

    fn put_body(&self, output: &mut Output) {
        let action = ActionCodes::from(*self);
        output.put(&[action.kind]);
        output.put_u16(action.which);
        output.put(&[action.state]);
    }
}
