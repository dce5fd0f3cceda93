//! The first change that is possible, found among the places that are due.
ghost use Rattle.std.specs.Prelude.{◌<◌, ◌↔◌, IsTrue, IfOk, length};
ghost use Rattle.thumb_model.specs.Listing.{code_of, places_of};
ghost use Rattle.code_flow.specs.Marks.{AreMarks};
ghost use Rattle.flow_tidy.specs.Tidying.{setting};
ghost use Rattle.flow_tidy.specs.DuePlaces.{AreDue, IsCaused, IsFoundNext, IsKnown};
ghost use Rattle.flow_tidy.specs.Made.{IsMadeAt};

use crate::changing::{changed_at, goes_to_next, has_end, is_idle};
use crate::due_places::DuePlaces;
use crate::found::{Changed, Found};
use crate::reached_places::ReachedPlaces;
use label_layout::Layout;
use listing_parser::{Listing, Memory};
use std::alloc::Global;

/// Whether some change has its cause at a place.
fn is_caused(listing: &Listing, reached: &ReachedPlaces, place: u32) -> bool
    requires within { place < length (places_of listing.now) }
    requires reached { AreMarks (code_of listing.now) reached.now }
    ensures { IsTrue result ↔ IsCaused (code_of listing.now) place }
{
    if goes_to_next(listing, place) {
        return true;
    }
    if has_end(listing, place) {
        return true;
    }
    is_idle(listing, reached, place)
}

/// Marks a place as not due if no change has its cause there.
fn judge(listing: &Listing, reached: &ReachedPlaces, due: &mut DuePlaces, place: u32)
    requires within { place < length (places_of listing.now) }
    requires reached { AreMarks (code_of listing.now) reached.now }
    requires due { AreDue (code_of listing.now) due.old }
    ensures { AreDue (code_of listing.now) due.new }
{
    if !is_caused(listing, reached, place) {
        due.take(place);
    }
}

/// The listing after the change at a place, if the place is due and a change is possible. If none has its cause there, the place isn't due any more.
fn changed_if_due(
    alloc: Global,
    listing: &Listing,
    laid: &Layout,
    reached: &ReachedPlaces,
    due: &mut DuePlaces,
    place: u32,
) -> Result<Option<Changed>, Memory>
    requires within { place < length (places_of listing.now) }
    requires known { IsKnown listing.now laid.now reached.now due.old }
    ensures known { IsKnown listing.now laid.now reached.now due.new }
    ensures made { IfOk result (IsMadeAt (setting laid.now.base) place listing.now) }
{
    if !due.has(place) {
        return Ok(None);
    }
    if let Some(changed) = changed_at(alloc, listing, laid, reached, place)? {
        return Ok(Some(changed));
    }
    judge(listing, reached, due, place);
    Ok(None)
}

/// The listing after the first change that is possible: at the least place, for the cause that is tried soonest.
pub(crate) fn first_change(
    alloc: Global,
    listing: &Listing,
    laid: &Layout,
    reached: &ReachedPlaces,
    due: &mut DuePlaces,
) -> Result<Option<Found>, Memory>
    requires known { IsKnown listing.now laid.now reached.now due.old }
    ensures known { IsKnown listing.now laid.now reached.now due.new }
    ensures next { IfOk result (IsFoundNext (setting laid.now.base) listing.now) }
{
    let places = listing.place_count();
    let from = due.least() as u32;
    for place in from..places {
        if let Some(changed) = changed_if_due(alloc, listing, laid, reached, due, place)? {
            return Ok(Some(Found { place, changed }));
        }
    }
    Ok(None)
}
