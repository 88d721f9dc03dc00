// The wait record of a statement.
ghost use Rattle.std.specs.Prelude.{◌≡◌, ◌≤◌, Decides};
ghost use Rattle.tables.specs.Limits.{max_delay};
ghost use Rattle.rules.specs.declared.branch.Branch.TheVariants.{Neither};
ghost use Rattle.rules.specs.Memory.{no_wait};
ghost use Rattle.rules.specs.Scanning.{counted_on, stepped};

use rules::branch::Branch;
use tables::limits::MAX_DELAY;
use tables::time::Tenths;

/// The branch that a statement took last, and for how many scans it has taken it since it turned to it. The count is never above
/// the longest wait, and is 0 where no branch is held.
// A branch and a count, as the rules have them. In an `Option` the branch would still have to be said not to be `Neither`, and an
// enum with the counts in its cases would need a match in every method.
#[derive(Clone, Copy, PartialEq, Eq)]
pub struct Wait {
    branch: Branch,
    count: Tenths,
    ghost few: { count.0 ≤ max_delay },
    ghost idle: { branch ≡ Neither → count.0 ≡ 0 },
}

// One scan more, up to the longest wait.
fn counted_on(count: Tenths) -> Tenths
    requires { count.0 ≤ max_delay }
    ensures { result.0 ≡ counted_on count.0 }
{
    Tenths((count.0 + 1).min(MAX_DELAY))
}

impl Wait {
    ghost use Rattle.memory.specs.Waits.{wait_in, reads_as};

    /// No branch held.
    pub fn none() -> Self
        ensures { wait_in result ≡ no_wait }
    {
        Wait {
            branch: Branch::Neither,
            count: Tenths(0),
        }
    }

    /// The record with a branch and a count, or none where no record has them.
    pub fn checked(branch: Branch, count: Tenths) -> Self
        ensures { wait_in result ≡ reads_as branch count.0 }
    {
        match branch {
            Branch::Then | Branch::Else if count.0 <= MAX_DELAY => Wait { branch, count },
            _ => Wait::none(),
        }
    }

    /// The branch held.
    pub fn branch(&self) -> Branch
        ensures { result ≡ (wait_in self.now).branch }
    {
        self.branch
    }

    /// For how many scans it has been held, at most 2,047.
    pub fn count(&self) -> Tenths
        ensures value { result.0 ≡ (wait_in self.now).count }
        ensures few { result.0 ≤ max_delay }
    {
        self.count
    }

    /// The next scan: the branch held counts on where it is taken again, and any other begins at 0.
    #[tactic(auto, unfolding(rules::specs::Scanning::stepped))]
    pub fn step(&mut self, taken: Branch)
        ensures { wait_in self.new ≡ stepped (wait_in self.old) taken }
    {
        let count = match (self.branch, taken) {
            (Branch::Then, Branch::Then) | (Branch::Else, Branch::Else) => counted_on(self.count),
            _ => Tenths(0),
        };
        *self = Wait {
            branch: taken,
            count,
        };
    }

    /// Whether two records hold the same branch at the same count.
    pub fn same(&self, other: &Wait) -> bool
        ensures { Decides result (wait_in self.now ≡ wait_in other.now) }
    {
        self == other
    }
}
