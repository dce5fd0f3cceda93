//! Tidying while places keep their numbers, as long as each change surely can be made: an instruction is removed, or a branch is redirected to a label that it
//! surely reaches. A listing is made only in the end, since making one takes time linear in its lines.
ghost use Rattle.std.specs.Prelude.{◌≡◌, ◌⊎◌, ◌<◌, ◌^◌, [], true, false, IfOk, IfSome, OnOk, List, Bool, length, slice_set};
ghost use Rattle.thumb_model.specs.Listing.{code_of, places_of, Name};
ghost use Rattle.thumb_model.specs.Replaced.{replaced_lines};
ghost use Rattle.listing_parser.specs.Parsing.{own_line};
ghost use Rattle.kept_places.specs.Marks.{is_gone, rank};
ghost use Rattle.listing_draft.specs.Drafted.{lines_now, name_in, stands};
ghost use Rattle.flow_tidy.specs.Tidying.{ToEnd, GoesToNext, IsIdle, IsPossible, setting};
ghost use Rattle.flow_tidy.specs.declared.chain_ends.Known.{Known};
ghost use Rattle.flow_tidy.specs.DuePlaces.{AreDue, HasEnd};
ghost use Rattle.flow_tidy.specs.ChainEnds.{AreEnds};
ghost use Rattle.flow_tidy.specs.Halves.{halves};
ghost use Rattle.flow_tidy.specs.Made.{change};
ghost use Rattle.flow_tidy.specs.Quick.{left, EndsAt, IsOutcome, IsOutcomeAt, IsQuick, IsRedirected, IsSafe, IsSure, IsWay, MayAim};
ghost use Rattle.flow_tidy.specs.declared.widest_layout.WidestLayout.{WidestLayout as Widest};

use crate::chain_ends::{Ends, chain_end};
use crate::drafted::{is_idle, is_next, lets_on, target};
use crate::due_places::DuePlaces;
use crate::limits::{is_short_branch, leave_room};
use crate::outcome::{PlaceOutcome, Redirected, Way};
use crate::widest_layout::{WidestLayout, is_beyond, reaches};
use code_flow::Reached;
use listing_draft::Draft;
use listing_parser::{Listing, Memory};
use std::alloc::Global;
use steady_layout::is_steady;
use thumb_instr::Instr;

/// Whether a listing surely can be laid out from the base and stays within the limits, whichever of its instructions go.
pub(crate) fn is_sure(alloc: Global, listing: &Listing, base: u32) -> Result<bool, Memory>
    ensures { IfOk result (λ b. b ≡ true → IsSure base listing.now) }
{
    if base % 4 != 0 {
        return Ok(false);
    }
    if !leave_room(listing.lines()) {
        return Ok(false);
    }
    is_steady(alloc, listing, base)
}

/// Removes the instruction at a kept place, whose branch goes to the next place or which nothing reaches. The kept place before becomes due; all places do, if
/// chains that ended there may go on.
fn remove(draft: &mut Draft, due: &mut DuePlaces, place: u32)
    requires within { place < length draft.old.gone }
    requires kept { is_gone draft.old.gone place ≡ false }
    requires many { length due.old ≡ length draft.old.gone }
    requires due { AreDue (code_of (lines_now draft.old)) (left draft.old.gone due.old) }
    requires goes { GoesToNext (code_of (lines_now draft.old)) (rank draft.old.gone place) ⊎ IsIdle (code_of (lines_now draft.old)) (rank draft.old.gone place) }
    ensures given { draft.new.given ≡ draft.old.given }
    ensures aims { draft.new.aims ≡ draft.old.aims }
    ensures gone { draft.new.gone ≡ slice_set draft.old.gone place true }
    ensures lines { lines_now draft.new ≡ replaced_lines own_line (rank draft.old.gone place) 1 [] (lines_now draft.old) }
    ensures many { length due.new ≡ length draft.new.gone }
    ensures due { AreDue (code_of (lines_now draft.new)) (left draft.new.gone due.new) }
{
    let is_loose = lets_on(draft, place);
    let before = draft.previous(place);
    draft.remove(place);
    due.take(place);
    if is_loose {
        due.put_all();
        return;
    }
    match before {
        None => {}
        Some(before) => due.put(before as usize),
    }
}

/// Removes the instruction at a kept place, whose branch goes to the next place or which nothing reaches, and forgets where chains end.
fn leave(draft: &mut Draft, due: &mut DuePlaces, ends: &mut Ends, place: u32)
    requires within { place < length draft.old.gone }
    requires kept { is_gone draft.old.gone place ≡ false }
    requires many { length due.old ≡ length draft.old.gone }
    requires due { AreDue (code_of (lines_now draft.old)) (left draft.old.gone due.old) }
    requires goes { GoesToNext (code_of (lines_now draft.old)) (rank draft.old.gone place) ⊎ IsIdle (code_of (lines_now draft.old)) (rank draft.old.gone place) }
    ensures lines { lines_now draft.new ≡ replaced_lines own_line (rank draft.old.gone place) 1 [] (lines_now draft.old) }
    ensures quick { (marks : List Bool) → IsQuick draft.old marks due.old → IsQuick draft.new marks due.new }
    ensures safe { (widest : Widest) → IsSafe widest draft.old → IsSafe widest draft.new }
    ensures ends { AreEnds draft.old ends.old → AreEnds draft.new ends.new }
{
    remove(draft, due, place);
    ends.forget();
}

/// The label that is the end of the chain of the branch at a kept place, if the branch surely may go to it. `last` is the place of the chain's last branch.
fn sure_end(
    alloc: Global,
    draft: &Draft,
    widest: &WidestLayout,
    place: u32,
    last: u32,
) -> Result<Option<Vec<u8>>, Memory>
    requires within { place < length draft.now.gone }
    requires kept { is_gone draft.now.gone place ≡ false }
    requires end { EndsAt draft.now place last }
    requires safe { IsSafe widest.now draft.now }
    ensures { IfOk result (λ o. IfSome o (λ name. (name_in (stands draft.now last) ≡ Some name.items) × MayAim widest.now.base draft.now place name.items)) }
{
    let Some(instr) = draft.instr(place) else {
        return Ok(None);
    };
    let Some(name) = draft.name(last) else {
        return Ok(None);
    };
    if !reaches(widest, draft.given(), place, &instr, name) {
        return Ok(None);
    }
    if !is_short_branch(&instr, name) {
        return Ok(None);
    }
    let label = name.to_vec(alloc)?;
    Ok(Some(label))
}

/// How many half-words lie before a place in the lines now, without any padding.
fn halves_before(draft: &Draft, widest: &WidestLayout, place: u32) -> u64
    requires within { place < length draft.now.gone }
    requires safe { IsSafe widest.now draft.now }
    ensures halves { result ≡ halves (places_of (lines_now draft.now)) (rank draft.now.gone place) }
    ensures few { result < 2 ^ 33 }
{
    draft.number(place) as u64 + widest.wide[place as usize] as u64
}

/// Whether the branch at a kept place surely doesn't reach the end of its chain. `last` is the place of the chain's last branch.
fn is_out_of_reach(draft: &Draft, widest: &WidestLayout, place: u32, last: u32) -> bool
    requires within { place < length draft.now.gone }
    requires kept { is_gone draft.now.gone place ≡ false }
    requires end { EndsAt draft.now place last }
    requires safe { IsSafe widest.now draft.now }
    ensures { result ≡ true → (label : Name) → IsPossible (setting widest.now.base) (change (rank draft.now.gone place) (ToEnd label)) (lines_now draft.now) → ⊥ }
{
    let Some(instr) = draft.instr(place) else {
        return false;
    };
    let Some(name) = draft.name(last) else {
        return false;
    };
    let Some(label) = draft.given().label_place(name) else {
        return false;
    };
    if label >= draft.place_count() {
        return false;
    }
    let from = halves_before(draft, widest, place);
    let to = halves_before(draft, widest, label);
    match instr {
        Instr::BranchIf { .. } => is_beyond(128, from, to),
        Instr::Branch { .. } => is_beyond(1024, from, to),
        _ => false,
    }
}

/// Redirects the branch at a kept place to the end of its chain, if it surely may go there. `last` is the place of the chain's last branch.
fn retarget(
    alloc: Global,
    draft: &mut Draft,
    widest: &WidestLayout,
    place: u32,
    last: u32,
) -> Result<Redirected, Memory>
    requires within { place < length draft.old.gone }
    requires kept { is_gone draft.old.gone place ≡ false }
    requires later { GoesToNext (code_of (lines_now draft.old)) (rank draft.old.gone place) → ⊥ }
    requires end { EndsAt draft.old place last }
    requires safe { IsSafe widest.now draft.old }
    ensures redirected { IfOk result (λ o. IsRedirected o widest.now.base draft.old place draft.new) }
    ensures quick { OnOk result ((marks dues : List Bool) → IsQuick draft.old marks dues → IsQuick draft.new marks dues) }
    ensures safe { OnOk result (IsSafe widest.now draft.new) }
    ensures ends { OnOk result ((known : List Known) → AreEnds draft.old known → AreEnds draft.new known) }
{
    match sure_end(alloc, draft, widest, place, last)? {
        Some(label) => {
            draft.aim(place, label);
            Ok(Redirected::Made)
        }
        None => {
            if is_out_of_reach(draft, widest, place, last) {
                Ok(Redirected::Refused)
            } else {
                Ok(Redirected::Unsure)
            }
        }
    }
}

/// Removes the instruction at a kept place, if nothing reaches it. Else the place isn't due any more, unless its branch is out of reach of its chain's end.
fn change_idle(
    draft: &mut Draft,
    due: &mut DuePlaces,
    ends: &mut Ends,
    reached: &Reached,
    widest: &WidestLayout,
    place: u32,
    is_refused: bool,
) -> PlaceOutcome
    requires within { place < length draft.old.gone }
    requires kept { is_gone draft.old.gone place ≡ false }
    requires later { GoesToNext (code_of (lines_now draft.old)) (rank draft.old.gone place) → ⊥ }
    requires refused { (label : Name) → IsPossible (setting widest.now.base) (change (rank draft.old.gone place) (ToEnd label)) (lines_now draft.old) → ⊥ }
    requires end { is_refused ≡ false → HasEnd (code_of (lines_now draft.old)) (rank draft.old.gone place) → ⊥ }
    requires quick { IsQuick draft.old reached.now due.old }
    requires safe { IsSafe widest.now draft.old }
    requires ends { AreEnds draft.old ends.old }
    ensures outcome { IsOutcomeAt result widest.now.base draft.old place draft.new }
    ensures quick { IsQuick draft.new reached.now due.new }
    ensures safe { IsSafe widest.now draft.new }
    ensures ends { AreEnds draft.new ends.new }
{
    if is_idle(draft, reached, place) {
        leave(draft, due, ends, place);
        return PlaceOutcome::Made;
    }
    if !is_refused {
        due.take(place);
    }
    PlaceOutcome::Nothing
}

/// Where the branch at a kept place goes.
fn way_of(draft: &mut Draft, ends: &mut Ends, place: u32) -> Way
    requires within { place < length draft.old.gone }
    requires kept { is_gone draft.old.gone place ≡ false }
    requires ends { AreEnds draft.old ends.old }
    ensures way { IsWay result draft.old place }
    ensures ends { AreEnds draft.new ends.new }
    ensures same { draft.new ≡ draft.old }
{
    let Some(to) = target(draft, place) else {
        return Way::Other;
    };
    if is_next(draft, place, to) {
        return Way::Next;
    }
    match chain_end(draft, ends, place, to) {
        None => Way::Other,
        Some(last) => Way::End(last),
    }
}

/// Makes the change at a kept place that is tried soonest, if it surely can be made.
fn change_at(
    alloc: Global,
    draft: &mut Draft,
    due: &mut DuePlaces,
    ends: &mut Ends,
    reached: &Reached,
    widest: &WidestLayout,
    place: u32,
) -> Result<PlaceOutcome, Memory>
    requires within { place < length draft.old.gone }
    requires kept { is_gone draft.old.gone place ≡ false }
    requires quick { IsQuick draft.old reached.now due.old }
    requires safe { IsSafe widest.now draft.old }
    requires ends { AreEnds draft.old ends.old }
    ensures outcome { IfOk result (λ o. IsOutcomeAt o widest.now.base draft.old place draft.new) }
    ensures quick { OnOk result (IsQuick draft.new reached.now due.new) }
    ensures safe { OnOk result (IsSafe widest.now draft.new) }
    ensures ends { OnOk result (AreEnds draft.new ends.new) }
{
    match way_of(draft, ends, place) {
        Way::Next => {
            leave(draft, due, ends, place);
            Ok(PlaceOutcome::Made)
        }
        Way::Other => Ok(change_idle(draft, due, ends, reached, widest, place, false)),
        Way::End(last) => match retarget(alloc, draft, widest, place, last)? {
            Redirected::Refused => Ok(change_idle(draft, due, ends, reached, widest, place, true)),
            Redirected::Made => Ok(PlaceOutcome::Made),
            Redirected::Unsure => Ok(PlaceOutcome::Unsure),
        },
    }
}

/// What becomes of a place, where it is kept and due.
fn change_if_due(
    alloc: Global,
    draft: &mut Draft,
    due: &mut DuePlaces,
    ends: &mut Ends,
    reached: &Reached,
    widest: &WidestLayout,
    place: u32,
) -> Result<PlaceOutcome, Memory>
    requires within { place < length draft.old.gone }
    requires quick { IsQuick draft.old reached.now due.old }
    requires safe { IsSafe widest.now draft.old }
    requires ends { AreEnds draft.old ends.old }
    ensures outcome { IfOk result (λ o. IsOutcomeAt o widest.now.base draft.old place draft.new) }
    ensures quick { OnOk result (IsQuick draft.new reached.now due.new) }
    ensures safe { OnOk result (IsSafe widest.now draft.new) }
    ensures ends { OnOk result (AreEnds draft.new ends.new) }
{
    if draft.is_gone(place) {
        return Ok(PlaceOutcome::Nothing);
    }
    if !due.has(place) {
        return Ok(PlaceOutcome::Nothing);
    }
    change_at(alloc, draft, due, ends, reached, widest, place)
}

/// What becomes of the first place at which a change is possible. Places that are gone or not due are skipped.
pub(crate) fn first_change(
    alloc: Global,
    draft: &mut Draft,
    due: &mut DuePlaces,
    ends: &mut Ends,
    reached: &Reached,
    widest: &WidestLayout,
) -> Result<PlaceOutcome, Memory>
    requires quick { IsQuick draft.old reached.now due.old }
    requires safe { IsSafe widest.now draft.old }
    requires ends { AreEnds draft.old ends.old }
    ensures outcome { IfOk result (λ o. IsOutcome o widest.now.base (lines_now draft.old) (lines_now draft.new)) }
    ensures quick { OnOk result (IsQuick draft.new reached.now due.new) }
    ensures safe { OnOk result (IsSafe widest.now draft.new) }
    ensures ends { OnOk result (AreEnds draft.new ends.new) }
{
    let places = draft.place_count();
    let from = due.least() as u32;
    let mut place = draft.node(from);
    while place < places {
        let outcome = change_if_due(alloc, draft, due, ends, reached, widest, place)?;
        match outcome {
            PlaceOutcome::Nothing => {
                let next = due.next(place + 1);
                place = draft.node(next);
            }
            PlaceOutcome::Made => return Ok(PlaceOutcome::Made),
            PlaceOutcome::Unsure => return Ok(PlaceOutcome::Unsure),
        }
    }
    Ok(PlaceOutcome::Nothing)
}
