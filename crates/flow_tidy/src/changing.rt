//! The changes at a place, in the order in which they are tried. A listing is made anew only where its change has its cause.
ghost use Rattle.std.specs.Prelude.{◌≡◌, ◌<◌, ◌↔◌, true, IsTrue, IfOk, length, option_and_then, slice_get};
ghost use Rattle.thumb_model.specs.Layout.{Layable};
ghost use Rattle.thumb_model.specs.Listing.{code_of, is_op_place, place_of, places_of};
ghost use Rattle.label_layout.specs.Addresses.{AreAddresses};
ghost use Rattle.listing_parser.specs.Parsing.{line_mentioning};
ghost use Rattle.listing_parser.specs.Targets.{aimed_lines};
ghost use Rattle.code_flow.specs.Marks.{AreMarks};
ghost use Rattle.flow_tidy.specs.Tidying.{lines_without, GoesToNext, IsIdle, setting};
ghost use Rattle.flow_tidy.specs.DuePlaces.{HasEnd};
ghost use Rattle.flow_tidy.specs.Made.{label_of_branch, IsAccepted, IsMade, IsMadeAt};

use crate::chains::{chain_end, label_of_branch};
use crate::found::Changed;
use crate::limits::{accepted, within_limits};
use crate::reached_places::ReachedPlaces;
use label_layout::{Layout, aim_fault};
use listing_parser::{Listing, Memory, Place, is_call};
use std::alloc::Global;

/// The place that the branch at a place goes to.
fn target(listing: &Listing, place: u32) -> Option<u32>
    ensures { result ≡ option_and_then (place_of (code_of listing.now)) (label_of_branch (slice_get (places_of listing.now) place)) }
{
    let label = label_of_branch(listing, place)?;
    listing.place_of(label)
}

/// Whether a branch to the next place stands at this one.
pub(crate) fn goes_to_next(listing: &Listing, place: u32) -> bool
    ensures { IsTrue result ↔ GoesToNext (code_of listing.now) place }
{
    match target(listing, place) {
        None => false,
        Some(next) => place < next && next - place == 1,
    }
}

/// Whether an instruction that nothing reaches stands at this place, and no call.
pub(crate) fn is_idle(listing: &Listing, reached: &ReachedPlaces, place: u32) -> bool
    requires within { place < length (places_of listing.now) }
    requires reached { AreMarks (code_of listing.now) reached.now }
    ensures { IsTrue result ↔ IsIdle (code_of listing.now) place }
{
    match listing.place(place) {
        Some(Place::Op { instr, .. }) => !is_call(&instr) && !reached.at(place),
        _ => false,
    }
}

/// The listing without the instruction at a place, if that can be laid out and is within the limits.
fn without(
    alloc: Global,
    listing: &Listing,
    base: u32,
    place: u32,
) -> Result<Option<Changed>, Memory>
    requires { is_op_place (slice_get (places_of listing.now) place) ≡ true }
    ensures { IfOk result (IsAccepted (setting base) (lines_without (setting base) place listing.now)) }
{
    let new = listing.replaced(alloc, place, 1, &[])?;
    accepted(alloc, new, base)
}

/// The listing without the branch at a place, if that goes to the next place and may be removed.
fn without_branch(
    alloc: Global,
    listing: &Listing,
    base: u32,
    place: u32,
) -> Result<Option<Changed>, Memory>
    ensures { IfOk result (IsMade (setting base) place 0 listing.now) }
{
    if !goes_to_next(listing, place) {
        return Ok(None);
    }
    without(alloc, listing, base, place)
}

/// Whether a branch stands at a place whose chain has an end.
pub(crate) fn has_end(listing: &Listing, place: u32) -> bool
    ensures { IsTrue result ↔ HasEnd (code_of listing.now) place }
{
    let Some(label) = label_of_branch(listing, place) else {
        return false;
    };
    chain_end(listing, label).is_some()
}

/// Whether the listing can be laid out once the branch at a place goes to this label: nothing moves, so it is enough that the branch reaches it.
/// The layout is the listing's.
fn reaches(listing: &Listing, laid: &Layout, place: u32, label: &[u8]) -> bool
    requires laid { AreAddresses listing.now laid.now }
    requires layable { Layable laid.now.base listing.now }
    requires op { is_op_place (slice_get (places_of listing.now) place) ≡ true }
    ensures { IsTrue result ↔ Layable laid.now.base (aimed_lines line_mentioning place label.now listing.now) }
{
    match listing.place(place) {
        Some(Place::Op { instr, .. }) => {
            let to = laid.target(listing, label);
            aim_fault(laid.address(place), &instr, to, 0).is_none()
        }
        _ => unreachable!(),
    }
}

/// The listing with the branch at a place redirected to the end of its chain, if it has one and that is possible. The layout is the given listing's.
fn with_end(
    alloc: Global,
    listing: &Listing,
    laid: &Layout,
    place: u32,
) -> Result<Option<Changed>, Memory>
    requires laid { AreAddresses listing.now laid.now }
    requires layable { Layable laid.now.base listing.now }
    ensures { IfOk result (IsMade (setting laid.now.base) place 1 listing.now) }
{
    let Some(label) = label_of_branch(listing, place) else {
        return Ok(None);
    };
    let Some(end) = chain_end(listing, label) else {
        return Ok(None);
    };
    if !reaches(listing, laid, place, end) {
        return Ok(None);
    }
    let new = listing.retargeted(alloc, place, end)?;
    Ok(within_limits(new))
}

/// The listing without the instruction at a place, if nothing reaches it and it may be removed.
fn without_idle(
    alloc: Global,
    listing: &Listing,
    reached: &ReachedPlaces,
    base: u32,
    place: u32,
) -> Result<Option<Changed>, Memory>
    requires within { place < length (places_of listing.now) }
    requires reached { AreMarks (code_of listing.now) reached.now }
    ensures { IfOk result (IsMade (setting base) place 2 listing.now) }
{
    if !is_idle(listing, reached, place) {
        return Ok(None);
    }
    without(alloc, listing, base, place)
}

/// The listing after the change at a place that is tried soonest, where one is possible. The layout is the listing's.
pub(crate) fn changed_at(
    alloc: Global,
    listing: &Listing,
    laid: &Layout,
    reached: &ReachedPlaces,
    place: u32,
) -> Result<Option<Changed>, Memory>
    requires within { place < length (places_of listing.now) }
    requires laid { AreAddresses listing.now laid.now }
    requires layable { Layable laid.now.base listing.now }
    requires reached { AreMarks (code_of listing.now) reached.now }
    ensures { IfOk result (IsMadeAt (setting laid.now.base) place listing.now) }
{
    let base = laid.base();
    if let Some(changed) = without_branch(alloc, listing, base, place)? {
        return Ok(Some(changed));
    }
    if let Some(changed) = with_end(alloc, listing, laid, place)? {
        return Ok(Some(changed));
    }
    without_idle(alloc, listing, reached, base, place)
}
