//! The crate's one call: tidying until no change is possible, by the places that are due and not by going over the listing again.
ghost use Rattle.std.specs.Prelude.{◌≡◌, ◌+◌, ◌≤◌, ℕ, true, false, length, IfNone, IfOk, IfSome, MatchResult, OnOk};
ghost use Rattle.thumb_model.specs.Layout.{Layable};
ghost use Rattle.thumb_model.specs.Listing.{code_of, places_of};
ghost use Rattle.thumb_model.specs.Literals.{HasLiterals};
ghost use Rattle.thumb_model.specs.Same.{Same};
ghost use Rattle.code_flow.specs.Marks.{AreMarks};
ghost use Rattle.label_layout.specs.Addresses.{AreAddresses};
ghost use Rattle.listing_draft.specs.Drafted.{lines_now};
ghost use Rattle.flow_tidy.specs.DuePlaces.{AreDue, IsKnown, IsNextAt};
ghost use Rattle.flow_tidy.specs.WidestLayout.{IsWidestLayout};
ghost use Rattle.flow_tidy.specs.Made.{AreMadeBy};
ghost use Rattle.flow_tidy.specs.Quick.{IsQuick, IsSafe, IsSure};
ghost use Rattle.flow_tidy.specs.Tidying.{setting, tidying_cost, AreTidiedBy, IsRefusal, NonePossible};

use crate::chain_ends::Ends;
use crate::due_places::DuePlaces;
use crate::errors::TidyError;
use crate::outcome::PlaceOutcome;
use crate::quick::{first_change as first_sure, is_sure};
use crate::reached_places::ReachedPlaces;
use crate::searching::first_change;
use crate::settling::{laid_out, settle};
use crate::tidied::Tidy;
use crate::widest_layout::{WidestLayout, widest_layout_of};
use code_flow::{Reached, reached};
use label_layout::{Layout, layout};
use listing_draft::Draft;
use listing_parser::{Listing, Memory};
use std::alloc::Global;
use step_ledger::{Ledger, Steps};

/// Makes the first change that is possible, and brings what is known of the listing up to date. Returns whether one was possible.
fn change_next(
    alloc: Global,
    listing: &mut Listing,
    laid: &mut Layout,
    reached: &mut ReachedPlaces,
    due: &mut DuePlaces,
) -> Result<bool, Memory>
    requires known { IsKnown listing.old laid.old reached.old due.old }
    ensures known { OnOk result (IsKnown listing.new laid.new reached.new due.new) }
    ensures base { OnOk result (laid.new.base ≡ laid.old.base) }
    ensures next { IfOk result (λ b. b ≡ true → (p : ℕ) × IsNextAt (setting laid.old.base) p listing.old listing.new) }
    ensures last { IfOk result (λ b. b ≡ false → NonePossible (setting laid.old.base) listing.old × (listing.new ≡ listing.old)) }
{
    match first_change(alloc, listing, laid, reached, due)? {
        None => Ok(false),
        Some(found) => {
            *listing = settle(alloc, listing, found, laid, reached, due)?;
            Ok(true)
        }
    }
}

/// Makes changes until none is possible any more, and counts them. The layout is the listing's, and so are the marks of what is reached.
fn change_all(
    alloc: Global,
    listing: &mut Listing,
    laid: &mut Layout,
    reached: &mut ReachedPlaces,
) -> Result<u64, Memory>
    requires laid { AreAddresses listing.old laid.old }
    requires layable { Layable laid.old.base listing.old }
    requires reached { AreMarks (code_of listing.old) reached.old }
    ensures { IfOk result (λ count. AreTidiedBy laid.old.base listing.old listing.new count) }
{
    // Places are counted in 32 bits, so changes fit into 64.
    let places = listing.place_count();
    let mut due = DuePlaces::all(alloc, places)?;
    let mut changes = 0;
    while change_next(alloc, listing, laid, reached, &mut due)? {
        changes += 1;
    }
    Ok(changes)
}

/// What is left of a listing once no change is possible any more. The layout is the listing's, and so are the marks of what is reached.
fn tidied(
    alloc: Global,
    mut listing: Listing,
    mut laid: Layout,
    mut reached: ReachedPlaces,
) -> Result<Tidy, Memory>
    requires laid { AreAddresses listing laid }
    requires layable { Layable laid.base listing }
    requires reached { AreMarks (code_of listing) reached }
    ensures { IfOk result (λ new. AreTidiedBy laid.base listing new.listing new.changes) }
{
    let changes = change_all(alloc, &mut listing, &mut laid, &mut reached)?;
    Ok(Tidy { listing, changes })
}

/// What is left of a listing that can be laid out from the base. The marks are the listing's.
fn tidied_from(
    alloc: Global,
    listing: Listing,
    base: u32,
    reached: ReachedPlaces,
) -> Result<Tidy, Memory>
    requires layable { Layable base listing }
    requires reached { AreMarks (code_of listing) reached }
    ensures { IfOk result (λ new. AreTidiedBy base listing new.listing new.changes) }
{
    let laid = laid_out(alloc, &listing, base)?;
    tidied(alloc, listing, laid, reached)
}

/// Which places of a listing are reached.
fn reached_places<L: Ledger>(
    alloc: Global,
    listing: &Listing,
    steps: &mut Steps<L>,
) -> Result<ReachedPlaces, Memory>
    ensures marks { IfOk result (AreMarks (code_of listing.now)) }
    ensures cost { OnOk result (steps.new ≤ steps.old + length (places_of listing.now)) }
{
    let reached = reached(alloc, listing, steps)?;
    ReachedPlaces::of(alloc, &reached, listing.place_count())
}

/// Tidies a listing that can be laid out, with a layout of each listing that a change makes. The layout is the listing's.
fn tidied_by_layouts<L: Ledger>(
    alloc: Global,
    listing: Listing,
    laid: Layout,
    steps: &mut Steps<L>,
) -> Result<Tidy, Memory>
    requires laid { AreAddresses listing laid }
    requires layable { Layable laid.base listing }
    ensures tidied { IfOk result (λ new. AreTidiedBy laid.base listing new.listing new.changes) }
    ensures cost { IfOk result (λ new. steps.new ≤ steps.old + tidying_cost listing new.changes) }
{
    let reached = reached_places(alloc, &listing, steps)?;
    tidied(alloc, listing, laid, reached)
}

/// How far tidying by places came.
struct Progress {
    /// How many changes were made.
    changes: u64,
    /// Which places of what is left are reached, if it is not sure whether a branch may be redirected; None if no change is possible any more.
    unsure: Option<ReachedPlaces>,
}

/// Makes changes while places keep their numbers, until none is possible any more or it is not sure whether a branch may be redirected.
fn change_by_places(
    alloc: Global,
    draft: &mut Draft,
    due: &mut DuePlaces,
    reached: &Reached,
    widest: &WidestLayout,
) -> Result<Progress, Memory>
    requires quick { IsQuick draft.old reached.now due.old }
    requires safe { IsSafe widest.now draft.old }
    ensures made { IfOk result (λ r. AreMadeBy (setting widest.now.base) (lines_now draft.old) (lines_now draft.new) r.changes) }
    ensures done { IfOk result (λ r. IfNone r.unsure (NonePossible (setting widest.now.base) (lines_now draft.new))) }
    ensures marks { IfOk result (λ r. IfSome r.unsure (AreMarks (code_of (lines_now draft.new)))) }
    ensures layable { OnOk result (Layable widest.now.base (lines_now draft.new)) }
{
    let places = draft.place_count();
    let mut ends = Ends::none(alloc, places)?;
    let mut changes = 0;
    loop {
        let outcome = first_sure(alloc, draft, due, &mut ends, reached, widest)?;
        match outcome {
            PlaceOutcome::Made => changes += 1,
            PlaceOutcome::Nothing => {
                return Ok(Progress {
                    changes,
                    unsure: None,
                });
            }
            PlaceOutcome::Unsure => {
                let marks = ReachedPlaces::kept(alloc, reached, draft)?;
                return Ok(Progress {
                    changes,
                    unsure: Some(marks),
                });
            }
        }
    }
}

/// What is left of a listing that surely can be laid out whichever of its instructions go. Its places keep their numbers until it is not sure whether a branch
/// may be redirected: from there on each change makes a listing. The widest layout is the listing's, and each place at which a change has its cause is due.
fn tidied_by_places(
    alloc: Global,
    listing: Listing,
    widest: &WidestLayout,
    due: &mut DuePlaces,
    reached: &Reached,
) -> Result<Tidy, Memory>
    requires sure { IsSure widest.now.base listing }
    requires widest { IsWidestLayout listing widest.now }
    requires due { AreDue (code_of listing) due.old }
    requires reached { AreMarks (code_of listing) reached.now }
    ensures { IfOk result (λ new. AreTidiedBy widest.now.base listing new.listing new.changes) }
{
    let mut draft = Draft::new(alloc, listing)?;
    // For the prover alone: places are counted in 32 bits, so changes fit into 64.
    let _places = draft.place_count();
    let progress = change_by_places(alloc, &mut draft, due, reached, widest)?;
    let Progress { changes, unsure } = progress;
    let listing = draft.into_listing(alloc)?;
    match unsure {
        None => Ok(Tidy { listing, changes }),
        Some(marks) => {
            let rest = tidied_from(alloc, listing, widest.base, marks)?;
            Ok(Tidy {
                listing: rest.listing,
                changes: changes + rest.changes,
            })
        }
    }
}

/// What is worked out of a listing before it is tidied by places.
struct Survey {
    /// Which places are reached.
    reached: Reached,
    /// The widest layout.
    widest: WidestLayout,
    /// The places that are due at first.
    due: DuePlaces,
}

/// Works out what is reached in a listing, its widest layout, and the places that are due at first.
fn survey_of<L: Ledger>(
    alloc: Global,
    listing: &Listing,
    base: u32,
    steps: &mut Steps<L>,
) -> Result<Survey, Memory>
    requires { IsSure base listing.now }
    ensures reached { IfOk result (λ s. AreMarks (code_of listing.now) s.reached) }
    ensures base { IfOk result (λ s. s.widest.base ≡ base) }
    ensures widest { IfOk result (λ s. IsWidestLayout listing.now s.widest) }
    ensures due { IfOk result (λ s. AreDue (code_of listing.now) s.due) }
    ensures cost { OnOk result (steps.new ≤ steps.old + length (places_of listing.now)) }
{
    let reached = reached(alloc, listing, steps)?;
    let (widest, due) = widest_layout_of(alloc, listing, base, &reached)?;
    Ok(Survey {
        reached,
        widest,
        due,
    })
}

/// Tidies a listing that surely can be laid out whichever of its instructions go, by places that keep their numbers.
fn tidied_surely<L: Ledger>(
    alloc: Global,
    listing: Listing,
    base: u32,
    steps: &mut Steps<L>,
) -> Result<Tidy, Memory>
    requires { IsSure base listing }
    ensures tidied { IfOk result (λ new. AreTidiedBy base listing new.listing new.changes) }
    ensures cost { IfOk result (λ new. steps.new ≤ steps.old + tidying_cost listing new.changes) }
{
    let found = survey_of(alloc, &listing, base, steps)?;
    let Survey {
        reached,
        widest,
        mut due,
    } = found;
    tidied_by_places(alloc, listing, &widest, &mut due, &reached)
}

/// The layout of a listing, unless the listing surely can be laid out whichever of its instructions go.
fn layout_unless_sure(
    alloc: Global,
    listing: &Listing,
    base: u32,
) -> Result<Option<Layout>, TidyError>
    ensures sure { IfOk result (λ o. IfNone o (IsSure base listing.now)) }
    ensures laid { IfOk result (λ o. IfSome o (λ laid. AreAddresses listing.now laid × (laid.base ≡ base))) }
    ensures verdict { MatchResult result (λ _. Layable base listing.now) (IsRefusal base listing.now) }
{
    if is_sure(alloc, listing, base)? {
        return Ok(None);
    }
    let laid = layout(alloc, listing, base)?;
    Ok(Some(laid))
}

/// Tidies a listing for an image that begins at the base: at the least place where a change is possible, a branch to the next place is removed; else a branch
/// is redirected to the end of its chain; else an instruction that nothing reaches is removed; until no change is possible. What is left runs as the given
/// listing does. A listing that cannot be laid out from the base is refused at its first such line.
///
/// A step is a visit of a place in the search for what is reached.
pub fn tidy<L: Ledger>(
    alloc: Global,
    listing: Listing,
    base: u32,
    steps: &mut Steps<L>,
) -> Result<Tidy, TidyError>
    ensures tidied { IfOk result (λ new. AreTidiedBy base listing new.listing new.changes) }
    ensures same { IfOk result (λ new. HasLiterals (code_of listing) → Same (code_of listing) (code_of new.listing)) }
    ensures verdict { MatchResult result (λ _. Layable base listing) (IsRefusal base listing) }
    ensures cost { IfOk result (λ new. steps.new ≤ steps.old + tidying_cost listing new.changes) }
{
    match layout_unless_sure(alloc, &listing, base)? {
        None => Ok(tidied_surely(alloc, listing, base, steps)?),
        Some(laid) => Ok(tidied_by_layouts(alloc, listing, laid, steps)?),
    }
}
