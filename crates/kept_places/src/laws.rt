//! The laws of ranks. Each is the contract of a function that does nothing.

ghost use Rattle.kept_places.specs.Laws.{OutsideByRank, RanksAreCounts, RanksAscend};

/// A rank is a place less the places before it that are gone.
pub fn ranks_are_counts()
    ensures { RanksAreCounts }
{}

/// A place behind a kept one has a greater rank.
pub fn ranks_ascend()
    ensures { RanksAscend }
{}

/// A place stands outside a window of kept places where its rank stands outside the window's.
pub fn outside_by_rank()
    ensures { OutsideByRank }
{}
