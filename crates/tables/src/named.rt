// What has a name: a statement, and a name itself.
ghost use Rattle.std.specs.Prelude.{◌≡◌, ℕ};
ghost use Rattle.tables.specs.Rows.{name_number};

use crate::statement::{Name, Statement};

/// What has a name.
pub trait Named {
    // The number in its name.
    ghost number: { Self → ℕ };

    /// Its name.
    fn name(&self) -> Name
        ensures { result.0 ≡ number self.now };
}

impl Named for Statement {
    ghost number = { λ s. s.name.0 };

    fn name(&self) -> Name {
        self.name
    }
}

impl Named for Name {
    ghost number = { name_number };

    fn name(&self) -> Name {
        *self
    }
}
