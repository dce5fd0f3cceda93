//! The laws of listings that are being changed. Each is the contract of a function that does nothing.

ghost use Rattle.edited_listing.specs.Giving.{LinesGiveWay};
ghost use Rattle.edited_listing.specs.Laws.{EditsCountLines, EditsExchangePlaces, EditsReadAgain, EditsReplaceLines, PlacesAreKept, UnchangedIsEdited};

/// Where items give way to new instructions, the lines are those in which these instructions stand in place of the others.
pub fn lines_give_way()
    ensures { LinesGiveWay }
{}

/// A listing of which nothing is changed has its own lines.
pub fn unchanged_is_edited()
    ensures { UnchangedIsEdited }
{}

/// Where a window of kept places gives way, the lines are those in which its instructions are replaced.
pub fn edits_replace_lines()
    ensures { EditsReplaceLines }
{}

/// Where a window of kept places gives way, its places are exchanged in the padded code.
pub fn edits_exchange_places()
    ensures { EditsExchangePlaces }
{}

/// The places of the lines now are the kept ones of the padded code.
pub fn places_are_kept()
    ensures { PlacesAreKept }
{}

/// How many lines there are after a window gave way.
pub fn edits_count_lines()
    ensures { EditsCountLines }
{}

/// The text of the lines after a window gave way is read as exactly these lines, under the premises of `EditsReadAgain`.
pub fn edits_read_again()
    ensures { EditsReadAgain }
{}
