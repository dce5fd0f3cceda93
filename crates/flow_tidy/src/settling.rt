//! After a change the layout, the marks of what is reached and the places that are due are brought up to date: only a layout that moved is made anew.
ghost use Rattle.std.specs.Prelude.{◌≡◌, ◌<◌, ◌⊎◌, [], OnOk, IfOk, length};
ghost use Rattle.thumb_model.specs.Layout.{Layable};
ghost use Rattle.thumb_model.specs.Listing.{code_of, places_of};
ghost use Rattle.thumb_model.specs.Replaced.{replaced};
ghost use Rattle.code_flow.specs.Marks.{AreMarks};
ghost use Rattle.label_layout.specs.Addresses.{AreAddresses};
ghost use Rattle.flow_tidy.specs.DuePlaces.{lets_on as code_lets_on, AreDue, IsKnown, IsNextAt};
ghost use Rattle.flow_tidy.specs.Made.{IsMovedTo};
ghost use Rattle.flow_tidy.specs.Tidying.{GoesToNext, IsIdle, setting};

use crate::chains::{is_branch_always, is_branch_if};
use crate::due_places::DuePlaces;
use crate::found::{Changed, Found};
use crate::reached_places::ReachedPlaces;
use label_layout::{Layout, LayoutError, layout};
use listing_draft::instr_of;
use listing_parser::{Listing, Memory};
use std::alloc::Global;

/// Whether chains that ended at a place may go on once the instruction there is removed: a conditional branch, followed by an unconditional one.
fn lets_on(listing: &Listing, place: u32) -> bool
    requires { place < length (places_of listing.now) }
    ensures { result ≡ code_lets_on (code_of listing.now) place }
{
    // For the prover alone: the type of the answer says that the places are fewer than 2^32.
    let _places = listing.place_count();
    let next = instr_of(listing.place(place + 1));
    is_branch_if(instr_of(listing.place(place))) && is_branch_always(next)
}

/// The layout of a listing that can be laid out.
pub(crate) fn laid_out(alloc: Global, listing: &Listing, base: u32) -> Result<Layout, Memory>
    requires { Layable base listing.now }
    ensures base { IfOk result (λ l. l.base ≡ base) }
    ensures laid { IfOk result (λ l. AreAddresses listing.now l) }
{
    match layout(alloc, listing, base) {
        Ok(laid) => Ok(laid),
        Err(LayoutError::Memory) => Err(Memory),
        Err(LayoutError::Line { .. }) => unreachable!(),
    }
}

/// Drops the marks of a place that is removed, whose branch goes to the next place or which nothing reaches, and marks what is due then.
fn leave(listing: &Listing, place: u32, reached: &mut ReachedPlaces, due: &mut DuePlaces)
    requires goes { GoesToNext (code_of listing.now) place ⊎ IsIdle (code_of listing.now) place }
    requires reached { AreMarks (code_of listing.now) reached.old }
    requires due { AreDue (code_of listing.now) due.old }
    ensures reached { AreMarks (replaced (code_of listing.now) place 1 []) reached.new }
    ensures due { AreDue (replaced (code_of listing.now) place 1 []) due.new }
{
    reached.leave(place);
    if lets_on(listing, place) {
        due.leave_all(place);
    } else {
        due.leave(place);
    }
}

/// The layout of the listing after a change. `moved` is that layout, if it was made with the change.
fn laid_after(
    alloc: Global,
    new: &Listing,
    base: u32,
    moved: Option<Layout>,
) -> Result<Layout, Memory>
    requires layable { Layable base new.now }
    requires moved { IsMovedTo base new.now moved }
    ensures base { IfOk result (λ l. l.base ≡ base) }
    ensures laid { IfOk result (λ l. AreAddresses new.now l) }
{
    match moved {
        Some(laid) => Ok(laid),
        None => laid_out(alloc, new, base),
    }
}

/// Brings what is known of a listing up to date after a change that was found, and returns the new listing. A redirected branch changes nothing of it.
pub(crate) fn settle(
    alloc: Global,
    listing: &Listing,
    found: Found,
    laid: &mut Layout,
    reached: &mut ReachedPlaces,
    due: &mut DuePlaces,
) -> Result<Listing, Memory>
    requires known { IsKnown listing.now laid.old reached.old due.old }
    requires next { IsNextAt (setting laid.old.base) found.place listing.now found.changed.listing }
    requires moved { IsMovedTo laid.old.base found.changed.listing found.changed.moved }
    ensures new { IfOk result (λ new. new ≡ found.changed.listing) }
    ensures base { OnOk result (laid.new.base ≡ laid.old.base) }
    ensures known { OnOk result (IsKnown found.changed.listing laid.new reached.new due.new) }
{
    let Found { place, changed } = found;
    let Changed {
        listing: new,
        moved,
    } = changed;
    if new.place_count() >= listing.place_count() {
        return Ok(new);
    }
    leave(listing, place, reached, due);
    let base = laid.base();
    *laid = laid_after(alloc, &new, base, moved)?;
    Ok(new)
}
