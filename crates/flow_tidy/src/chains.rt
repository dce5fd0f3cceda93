//! Where branches go: the label of each, and the end of the chain of branches that begins at a label.
ghost use Rattle.std.specs.Prelude.{◌≡◌, option_map, slice_get};
ghost use Rattle.thumb_model.specs.Listing.{code_of, places_of};
ghost use Rattle.flow_tidy.specs.DuePlaces.{is_branch_always, is_branch_if};
ghost use Rattle.flow_tidy.specs.Tidying.{is_always, is_branch};
ghost use Rattle.flow_tidy.specs.Made.{hop_of, label_of_always, label_of_branch, IsEndOf};

use listing_parser::{Listing, Place};
use thumb_instr::Instr;

/// Whether an instruction is a branch without a condition.
pub(crate) fn is_always(instr: &Instr) -> bool
    ensures { result ≡ is_always instr.now }
{
    matches!(instr, Instr::Branch { .. })
}

/// Whether an instruction is a branch, with a condition or without.
pub(crate) fn is_branch(instr: &Instr) -> bool
    ensures { result ≡ is_branch instr.now }
{
    matches!(instr, Instr::BranchIf { .. } | Instr::Branch { .. })
}

/// Whether the instruction that stands somewhere, if one does, is a branch with a condition.
pub(crate) fn is_branch_if(instr: Option<Instr>) -> bool
    ensures { result ≡ is_branch_if instr }
{
    match instr {
        None => false,
        Some(instr) => is_branch(&instr) && !is_always(&instr),
    }
}

/// Whether the instruction that stands somewhere, if one does, is a branch without a condition.
pub(crate) fn is_branch_always(instr: Option<Instr>) -> bool
    ensures { result ≡ is_branch_always instr }
{
    match instr {
        None => false,
        Some(instr) => is_always(&instr),
    }
}

/// The label that the branch at a place goes to.
pub(crate) fn label_of_branch(listing: &Listing, place: u32) -> Option<&[u8]>
    ensures { option_map (λ r. r.now) result ≡ label_of_branch (slice_get (places_of listing.now) place) }
{
    match listing.place(place) {
        Some(
            Place::Op {
                instr,
                mention: Some(mention),
            },
        ) if is_branch(&instr) => Some(mention.name.as_slice()),
        _ => None,
    }
}

/// The label that the branch without a condition at a place goes to.
fn label_of_always(listing: &Listing, place: u32) -> Option<&[u8]>
    ensures { option_map (λ r. r.now) result ≡ label_of_always (slice_get (places_of listing.now) place) }
{
    match listing.place(place) {
        Some(
            Place::Op {
                instr,
                mention: Some(mention),
            },
        ) if is_always(&instr) => Some(mention.name.as_slice()),
        _ => None,
    }
}

/// The code label to which the branch without a condition at a code label goes.
fn hop<'a>(listing: &'a Listing, label: &[u8]) -> Option<&'a [u8]>
    ensures { option_map (λ r. r.now) result ≡ hop_of (code_of listing.now) label.now }
{
    let place = listing.place_of(label)?;
    let next = label_of_always(listing, place)?;
    if listing.place_of(next).is_some() {
        Some(next)
    } else {
        None
    }
}

/// The end of the chain that begins at a label. One that goes on for as many hops as there are places never ends.
pub(crate) fn chain_end<'a>(listing: &'a Listing, label: &[u8]) -> Option<&'a [u8]>
    ensures { IsEndOf (code_of listing.now) label.now (option_map (λ r. r.now) result) }
{
    let mut end = hop(listing, label)?;
    for _hops in 0..listing.place_count() {
        match hop(listing, end) {
            None => return Some(end),
            Some(next) => end = next,
        }
    }
    None
}
