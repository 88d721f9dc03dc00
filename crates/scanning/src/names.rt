// Which names are enabled in a scan.
ghost use Rattle.std.specs.Prelude.{◌≡◌, ℕ, ◌+◌, ◌<◌, true, false, ◌||◌, ◌==◌};
ghost use Rattle.tables.specs.Limits.{last_name, counted_to};
ghost use Rattle.scanning.specs.EnabledNames.{is_there};

use tables::limits::{LAST_NAME, MAX_NAMES};
use tables::statement::Name;

/// The names of the statements that are enabled in a scan, and how many statements are.
#[derive(Clone, Copy)]
pub struct EnabledNames {
    on: [bool; MAX_NAMES],
    count: usize,
}

impl EnabledNames {
    // No name.
    pub(crate) fn none() -> Self
        ensures count { result.count ≡ 0 }
        ensures names { (n : ℕ) → is_there result n ≡ false }
    {
        EnabledNames {
            on: [false; MAX_NAMES],
            count: 0,
        }
    }

    // One statement more, of this name.
    pub(crate) fn add(&mut self, name: Name)
        requires named { counted_to last_name name.0 ≡ true }
        requires room { self.old.count < last_name }
        ensures count { self.new.count ≡ self.old.count + 1 }
        ensures names { (n : ℕ) → is_there self.new n ≡ (is_there self.old n || (name.0 == n)) }
    {
        self.on[name.0 as usize - 1] = true;
        self.count += 1;
    }

    /// How many statements are enabled.
    pub fn count(&self) -> usize
        ensures { result ≡ self.now.count }
    {
        self.count
    }

    /// Whether a name is enabled.
    pub fn contains(&self, name: Name) -> bool
        ensures { result ≡ is_there self.now name.0 }
    {
        matches!(name.0, 1..=LAST_NAME) && self.on[name.0 as usize - 1]
    }
}
