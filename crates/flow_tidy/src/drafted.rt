//! What stands at the places of a draft: branches, where they go, and idle instructions. Contracts say it of the lines now, where a kept place has its rank.
ghost use Rattle.std.specs.Prelude.{◌≡◌, ◌<◌, ◌↔◌, false, length, option_and_then, option_map, IfSome, IsTrue};
ghost use Rattle.kept_places.specs.Marks.{is_gone, rank};
ghost use Rattle.thumb_model.specs.Listing.{code_of, place_of};
ghost use Rattle.code_flow.specs.Marks.{AreMarks};
ghost use Rattle.listing_draft.specs.Drafted.{instr_in, lines_now, stands};
ghost use Rattle.flow_tidy.specs.DuePlaces.{lets_on as code_lets_on};
ghost use Rattle.flow_tidy.specs.Tidying.{GoesToNext, IsIdle};
ghost use Rattle.flow_tidy.specs.Made.{label_of_always, label_of_branch};
ghost use Rattle.flow_tidy.specs.Quick.{left, GoesTo};

use crate::chains::{is_branch, is_branch_always, is_branch_if};
use code_flow::Reached;
use listing_draft::Draft;
use listing_parser::is_call;
use thumb_instr::Instr;

/// The kept place that the branch at a kept place goes to.
pub(crate) fn target(draft: &mut Draft, place: u32) -> Option<u32>
    requires within { place < length draft.old.gone }
    requires kept { is_gone draft.old.gone place ≡ false }
    ensures place { option_map (rank draft.old.gone) result ≡ option_and_then (place_of (code_of (lines_now draft.old))) (label_of_branch (stands draft.old place)) }
    ensures within { IfSome result (λ q. q < length draft.old.gone) }
    ensures kept { IfSome result (λ q. is_gone draft.old.gone q ≡ false) }
    ensures same { draft.new ≡ draft.old }
{
    match draft.instr(place) {
        None => None,
        Some(instr) => {
            if is_branch(&instr) {
                draft.goes_to(place)
            } else {
                None
            }
        }
    }
}

/// The kept place that the branch without a condition at a kept place goes to.
pub(crate) fn hop(draft: &mut Draft, place: u32) -> Option<u32>
    requires within { place < length draft.old.gone }
    requires kept { is_gone draft.old.gone place ≡ false }
    ensures place { option_map (rank draft.old.gone) result ≡ option_and_then (place_of (code_of (lines_now draft.old))) (label_of_always (stands draft.old place)) }
    ensures within { IfSome result (λ q. q < length draft.old.gone) }
    ensures kept { IfSome result (λ q. is_gone draft.old.gone q ≡ false) }
    ensures same { draft.new ≡ draft.old }
{
    if is_branch_always(draft.instr(place)) {
        draft.goes_to(place)
    } else {
        None
    }
}

/// Whether the branch at a kept place goes to the next one. The other place is the kept one that it goes to.
pub(crate) fn is_next(draft: &mut Draft, place: u32, to: u32) -> bool
    requires within { place < length draft.old.gone }
    requires kept { is_gone draft.old.gone place ≡ false }
    requires goes { GoesTo draft.old place to }
    ensures next { IsTrue result ↔ GoesToNext (code_of (lines_now draft.old)) (rank draft.old.gone place) }
    ensures same { draft.new ≡ draft.old }
{
    if to <= place {
        return false;
    }
    draft.node(place + 1) == to
}

/// Whether an instruction that nothing reaches stands at a kept place, and no call.
pub(crate) fn is_idle(draft: &Draft, reached: &Reached, place: u32) -> bool
    requires within { place < length draft.now.gone }
    requires kept { is_gone draft.now.gone place ≡ false }
    requires marks { place < length reached.now }
    requires reached { AreMarks (code_of (lines_now draft.now)) (left draft.now.gone reached.now) }
    ensures { IsTrue result ↔ IsIdle (code_of (lines_now draft.now)) (rank draft.now.gone place) }
{
    match draft.instr(place) {
        None => false,
        Some(instr) => !is_call(&instr) && !reached.at(place),
    }
}

/// The instruction at a kept place, where one stands there; none at the end.
fn instr_at(draft: &Draft, place: u32) -> Option<Instr>
    requires kept { is_gone draft.now.gone place ≡ false }
    ensures { result ≡ instr_in (stands draft.now place) }
{
    if place >= draft.place_count() {
        return None;
    }
    draft.instr(place)
}

/// Whether chains that ended at a kept place may go on once the instruction there is removed: a conditional branch, followed by an unconditional one.
pub(crate) fn lets_on(draft: &mut Draft, place: u32) -> bool
    requires within { place < length draft.old.gone }
    requires kept { is_gone draft.old.gone place ≡ false }
    ensures on { result ≡ code_lets_on (code_of (lines_now draft.old)) (rank draft.old.gone place) }
    ensures same { draft.new ≡ draft.old }
{
    // For the prover alone: the type of the answer says that the places are fewer than 2^32.
    let _places = draft.place_count();
    let next = draft.node(place + 1);
    is_branch_if(draft.instr(place)) && is_branch_always(instr_at(draft, next))
}
