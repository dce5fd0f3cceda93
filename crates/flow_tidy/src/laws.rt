//! The laws of tidying. Each is the contract of a function that does nothing.

ghost use Rattle.flow_tidy.specs.Worked.{SmallListings};
ghost use Rattle.flow_tidy.specs.Laws.{TidyingIsDetermined, TidyingIsComplete, TidyingEnds, TidyingKeepsRuns, TidyingStaysLayable, ChangesKeepRuns, LabelsStayCode, ReachedStays, ReachedStaysByEach};

/// The changes and the lines that are left are determined.
pub fn tidying_is_determined()
    ensures { TidyingIsDetermined }
{}

/// Each change was possible in the lines as they then were, and none is in those that are left.
pub fn tidying_is_complete()
    ensures { TidyingIsComplete }
{}

/// Of n places there are at most n (n + 1) changes, and no more than n places are left.
pub fn tidying_ends()
    ensures { TidyingEnds }
{}

/// Tidying keeps the runs.
pub fn tidying_keeps_runs()
    ensures { TidyingKeepsRuns }
{}

/// Lines that can be laid out stay so.
pub fn tidying_stays_layable()
    ensures { TidyingStaysLayable }
{}

/// One change keeps the runs: a branch to the next place or an instruction that nothing reaches is removed, or a branch is redirected to the end of its chain.
pub fn changes_keep_runs()
    ensures { ChangesKeepRuns }
{}

/// Each code label is still a code label after a change.
pub fn labels_stay_code()
    ensures { LabelsStayCode }
{}

/// What is reached never changes while tidying.
pub fn reached_stays()
    ensures { ReachedStays }
{}

/// What is reached stays so after each change.
pub fn reached_stays_by_each()
    ensures { ReachedStaysByEach }
{}

/// What tidying makes of four small listings: of a branch to a branch and an idle instruction, of a branch to the next place, of a loop and of a call that
/// nothing reaches.
pub fn small_listings_are_tidied()
    ensures { SmallListings }
{}
