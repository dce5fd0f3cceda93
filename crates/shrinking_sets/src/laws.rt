//! The laws of marks. Each is the contract of a function that does nothing.

ghost use Rattle.shrinking_sets.specs.Laws.{ClearedByPointsIsRead, ClearedIsRead, ClearingBegins, ClearingEnds, ClearingGoesOn, ClosedHaveAll, ForwardBegins, ForwardGoesOn, ForwardIsRead, LostIsSimpler, NothingEnters, OthersStayClosed, PaddingIsNothing, ReplacingIsExchange, StepsByPoints, VisitsKeepClosed, WindowIsThrough};

/// From a place that is marked forward the item is read.
pub fn forward_is_read()
    ensures { ForwardIsRead }
{}

/// Where a window gave way, the item is still read from a place whose mark wasn't cleared.
pub fn cleared_is_read()
    ensures { ClearedIsRead }
{}

/// The same where all code points share one mark.
pub fn cleared_by_points_is_read()
    ensures { ClearedByPointsIsRead }
{}

/// Where a place outside the window wasn't cleared, a visit of it would mark nothing.
pub fn others_stay_closed()
    ensures { OthersStayClosed }
{}

/// No way from outside an unlabelled window leads to a place inside it but its first.
pub fn nothing_enters()
    ensures { NothingEnters }
{}

/// What is read at a window is read in it before it is written there, or passes it and is read behind it.
pub fn window_is_through()
    ensures { WindowIsThrough }
{}

/// The invariant of the walk that clears marks holds at its beginning.
pub fn clearing_begins()
    ensures { ClearingBegins }
{}

/// A visit of a place preserves the invariant of the walk.
pub fn clearing_goes_on()
    ensures { ClearingGoesOn }
{}

/// Where no place is pending, what wasn't cleared is read.
pub fn clearing_ends()
    ensures { ClearingEnds }
{}

/// A visit where all code points share one mark is a visit of that walk.
pub fn steps_by_points()
    ensures { StepsByPoints }
{}

/// A visit preserves that each place that isn't on the stack is closed: a visit of such a place would mark nothing.
pub fn visits_keep_closed()
    ensures { VisitsKeepClosed }
{}

/// Where all places are closed, each from which the item is read is marked.
pub fn closed_have_all()
    ensures { ClosedHaveAll }
{}

/// Whether an item that was read at the window is lost there doesn't depend on what the old instructions write.
pub fn lost_is_simpler()
    ensures { LostIsSimpler }
{}

/// The model's replacement by as many instructions is an exchange.
pub fn replacing_is_exchange()
    ensures { ReplacingIsExchange }
{}

/// What stands at places that are gone reads and writes nothing.
pub fn padding_is_nothing()
    ensures { PaddingIsNothing }
{}

/// Where a window gave way, the forward marks of all places outside the window still hold.
pub fn forward_begins()
    ensures { ForwardBegins }
{}

/// A step preserves that the forward mark of each place that isn't due holds.
pub fn forward_goes_on()
    ensures { ForwardGoesOn }
{}
