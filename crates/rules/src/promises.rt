// Functions whose contracts state what holds of every scan, every reorder and every run.
ghost use Rattle.rules.specs.Acting.{TimeLeftIsOne, WaitsAreSumsOfDelays};
ghost use Rattle.rules.specs.Exchanging.{OnlyUntouchingNeighboursExchange};
ghost use Rattle.rules.specs.Locality.{TestsReadOnlyWhatTheyName, BranchesWriteOnlyWhatTheySet, RecordsStepAlone};
ghost use Rattle.rules.specs.Reordering.{ReordersAsAccepted};
ghost use Rattle.rules.specs.RunsAlike.{RearrangedTablesRunAlike};
ghost use Rattle.rules.specs.ScanResults.{RecordsFollowTheBranchesTaken};
ghost use Rattle.rules.specs.Testing.{JoinedFromTheTop};
ghost use Rattle.rules.specs.Touching.{TouchingInPlainWords};
ghost use Rattle.rules.specs.WorkedExamples.{WorkedExamples, TellingExamples};

/// The definitions in plain words: tests are joined from the top, an action's wait is the sum of the DELAYs above it, time left
/// has one answer, and a statement touches itself exactly when it sets something.
pub fn definitions_in_plain_words()
    ensures joins { JoinedFromTheTop }
    ensures waits { WaitsAreSumsOfDelays }
    ensures time_left { TimeLeftIsOne }
    ensures touching { TouchingInPlainWords }
{}

/// What a statement reads and writes: its tests read only what they name, its branches write only what it sets, and its turn
/// steps its own wait record.
pub fn statements_are_local()
    ensures tests { TestsReadOnlyWhatTheyName }
    ensures writes { BranchesWriteOnlyWhatTheySet }
    ensures records { RecordsStepAlone }
{}

/// Each statement's branch is decided by the places as the statements above it left them, and its record steps to that branch;
/// one that is not enabled holds none.
pub fn records_follow_the_branches_taken()
    ensures { RecordsFollowTheBranchesTaken }
{}

/// A reorder answers 0 exactly for an order that is accepted, has one answer, and leaves a rearrangement.
pub fn reorders_as_accepted()
    ensures { ReordersAsAccepted }
{}

/// Neighbours that do not touch may be exchanged; two that touch may not.
pub fn only_untouching_neighbours_exchange()
    ensures { OnlyUntouchingNeighboursExchange }
{}

/// Two tables with the same statements, each touching pair in the same order, run alike whatever the calls.
pub fn rearranged_tables_run_alike()
    ensures { RearrangedTablesRunAlike }
{}

/// Twelve examples of documents, scans, tests, waits and orders, and some in which a wrong scan would show.
pub fn worked_examples()
    ensures twelve { WorkedExamples }
    ensures telling { TellingExamples }
{}
