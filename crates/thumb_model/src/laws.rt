//! The model's laws, which other crates rest on. Each is the contract of a function that does nothing.

ghost use Rattle.thumb_model.specs.Cuts.{ReplacedLinesAreACut};
ghost use Rattle.thumb_model.specs.Laws.{StepsKeepWorlds, OnlyItemsAreLive, PointsArePlaces};
ghost use Rattle.thumb_model.specs.Reaches.{ReachesAreFields};
ghost use Rattle.thumb_model.specs.Returns.{ReturnsAreCuts};

/// A step leaves each number in its range, under a naming that fits.
pub fn steps_keep_worlds()
    ensures { StepsKeepWorlds }
{}

/// Only the nineteen items are live.
pub fn only_items_are_live()
    ensures { OnlyItemsAreLive }
{}

/// The places of the code points are the same under every naming: those of code labels and return points.
pub fn points_are_places()
    ensures { PointsArePlaces }
{}

/// A replacement keeps the lines before and after the window, the labels of its first line, and the lines between its instructions.
pub fn replaced_lines_are_a_cut()
    ensures { ReplacedLinesAreACut }
{}

/// The layout accepts exactly what an encoding's field holds: an even distance of a branch, and a number of words past a literal load's rounded address.
pub fn reaches_are_fields()
    ensures { ReachesAreFields }
{}

/// Each call splits the lines: as many calls come before it as its number says, and its return point is the place after it.
/// Where lines are laid out, the word of the return point is 1 more than the address after the call.
pub fn returns_are_cuts()
    ensures { ReturnsAreCuts }
{}
