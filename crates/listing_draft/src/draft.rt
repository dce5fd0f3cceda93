//! A listing from which instructions are removed and in which branches are redirected, as tidying does, while the numbers of its places stay.
ghost use Rattle.std.specs.Prelude.{◌≡◌, option_map, replicate, None, IfOk};
ghost use Rattle.listing_parser.specs.Views.{place_view};
ghost use Rattle.listing_draft.specs.Drafted.{instr_in, name_in};
ghost use Rattle.listing_draft.specs.Invariant.{names_of};

use crate::emitting::emit;
use kept_places::KeptPlaces;
use listing_parser::{Listing, Memory, Place};
use std::alloc::{AllocError, Global};
use std::marker::Model;
use thumb_instr::Instr;

/// A listing from which instructions are removed and in which branches are redirected while the numbers of its places stay. Contracts see the given lines,
/// which places are gone, and the new labels of redirected branches; `lines_now` makes the lines now of these. There a kept place has as its number its rank:
/// how many kept places stand before it.
///
/// `kept` has the places that are kept, `aims` the labels, and `is_changed` tells whether anything was changed.
#[derive(Drop)]
pub struct Draft {
    listing: Listing,
    kept: KeptPlaces,
    aims: Vec<Option<Vec<u8>>>,
    is_changed: bool,
}

impl Model for Draft {
    ghost use Rattle.listing_draft.specs.Drafted.{Drafted};
    ghost use Rattle.listing_draft.specs.Invariant.{names_of};

    ghost Value = { Drafted };

    ghost use Rattle.listing_draft.specs.Invariant.{IsDraftInside};

    ghost view = { λ s. record { given = s.listing; gone = s.kept; aims = names_of s.aims.items } };

    ghost invariant = { IsDraftInside };
}

/// No new label for any of `count` places.
fn none_aimed(alloc: Global, count: u32) -> Result<Vec<Option<Vec<u8>>>, AllocError>
    ensures { IfOk result (λ aims. names_of aims.items ≡ replicate count None) }
{
    let mut aims = Vec::with_capacity(alloc, count as usize)?;
    for _place in 0..count {
        aims.push(None)?;
    }
    Ok(aims)
}

/// The instruction of a place, where one stands there.
pub fn instr_of(place: Option<Place<'_>>) -> Option<Instr>
    ensures { result ≡ instr_in (option_map place_view place.entry) }
{
    match place {
        None => None,
        Some(Place::Word(_)) => None,
        Some(Place::Op { instr, mention: _ }) => Some(instr),
    }
}

/// The name that the instruction at a place mentions.
fn name_of(place: Option<Place<'_>>) -> Option<&[u8]>
    ensures { option_map (λ r. r.now) result ≡ name_in (option_map place_view place.entry) }
{
    match place {
        None => None,
        Some(Place::Word(_)) => None,
        Some(
            Place::Op {
                instr: _,
                mention: None,
            },
        ) => None,
        Some(
            Place::Op {
                instr: _,
                mention: Some(mention),
            },
        ) => Some(mention.name.as_slice()),
    }
}

impl Draft {
    ghost use Rattle.std.specs.Prelude.{◌≡◌, ◌<◌, ◌≤◌, suc, [], true, false, Some, length, option_and_then, option_map, slice_set, IfNone, IfOk, IfSome};
    ghost use Rattle.kept_places.specs.Marks.{is_gone, rank, IsNode};
    ghost use Rattle.thumb_model.specs.Listing.{code_of, is_op_place, labels_from, place_of};
    ghost use Rattle.thumb_model.specs.Steps.{label_place};
    ghost use Rattle.thumb_model.specs.Replaced.{replaced_lines};
    ghost use Rattle.listing_parser.specs.Parsing.{line_mentioning, own_line};
    ghost use Rattle.listing_parser.specs.Targets.{aimed_lines};
    ghost use Rattle.listing_draft.specs.Drafted.{instr_in, lines_now, name_in, stands, unchanged};
    ghost use Rattle.listing_draft.specs.Invariant.{IsDraft};

    /// The draft of a listing of which nothing is changed yet.
    pub fn new(alloc: Global, listing: Listing) -> Result<Self, AllocError>
        ensures is { IfOk result (λ d. d ≡ unchanged listing) }
        ensures lines { IfOk result (λ d. lines_now d ≡ listing) }
    {
        let count = listing.place_count();
        let kept = KeptPlaces::new(alloc, count)?;
        let aims = none_aimed(alloc, count)?;
        Ok(Draft {
            listing,
            kept,
            aims,
            is_changed: false,
        })
    }

    /// The listing as it was given.
    pub fn given(&self) -> &Listing
        ensures { result.now ≡ self.now.given }
    {
        &self.listing
    }

    /// How many places there are, with those that are gone.
    pub fn place_count(&self) -> u32
        ensures count { result ≡ length self.now.gone }
        ensures draft { IsDraft self.now }
    {
        self.kept.len()
    }

    /// Whether a place is gone.
    pub fn is_gone(&self, place: u32) -> bool
        requires { place < length self.now.gone }
        ensures { result ≡ is_gone self.now.gone place }
    {
        self.kept.is_gone(place)
    }

    /// The least kept place from a place on, or the end where none is left.
    pub fn node(&mut self, place: u32) -> u32
        requires { place ≤ length self.old.gone }
        ensures node { IsNode self.old.gone place result }
        ensures same { self.new ≡ self.old }
    {
        self.kept.node(place)
    }

    /// The kept place right before a kept one or the end, if there is one.
    pub fn previous(&self, place: u32) -> Option<u32>
        requires within { place ≤ length self.now.gone }
        requires kept { is_gone self.now.gone place ≡ false }
        ensures some { IfSome result (λ q. (q < place) × (is_gone self.now.gone q ≡ false) × (suc (rank self.now.gone q) ≡ rank self.now.gone place)) }
        ensures none { IfNone result (rank self.now.gone place ≡ 0) }
    {
        self.kept.previous(place)
    }

    /// The number that a place has in the lines now: how many kept places stand before it.
    pub fn number(&self, place: u32) -> u32
        requires { place ≤ length self.now.gone }
        ensures { result ≡ rank self.now.gone place }
    {
        self.kept.number(place)
    }

    /// The instruction at a kept place, where one stands there.
    pub fn instr(&self, place: u32) -> Option<Instr>
        requires within { place < length self.now.gone }
        requires kept { is_gone self.now.gone place ≡ false }
        ensures { result ≡ instr_in (stands self.now place) }
    {
        instr_of(self.listing.place(place))
    }

    /// The name that the instruction at a kept place mentions now.
    pub fn name(&self, place: u32) -> Option<&[u8]>
        requires within { place < length self.now.gone }
        requires kept { is_gone self.now.gone place ≡ false }
        ensures { option_map (λ r. r.now) result ≡ name_in (stands self.now place) }
    {
        match &self.aims[place as usize] {
            Some(name) => {
                if self.listing.is_op(place) {
                    Some(name.as_slice())
                } else {
                    None
                }
            }
            None => name_of(self.listing.place(place)),
        }
    }

    /// The place, by its given number, before which the label stands that the instruction at a kept place mentions now.
    fn label_place(&self, place: u32) -> Option<u32>
        requires within { place < length self.now.gone }
        requires kept { is_gone self.now.gone place ≡ false }
        ensures { result ≡ option_and_then (λ name. label_place name (labels_from 0 self.now.given)) (name_in (stands self.now place)) }
    {
        let name = self.name(place)?;
        self.listing.label_place(name)
    }

    /// The kept place at which the code label stands that the instruction at a kept place mentions now.
    pub fn goes_to(&mut self, place: u32) -> Option<u32>
        requires within { place < length self.old.gone }
        requires kept { is_gone self.old.gone place ≡ false }
        ensures place { option_map (rank self.old.gone) result ≡ option_and_then (place_of (code_of (lines_now self.old))) (name_in (stands self.old place)) }
        ensures within { IfSome result (λ q. q < length self.old.gone) }
        ensures kept { IfSome result (λ q. is_gone self.old.gone q ≡ false) }
        ensures same { self.new ≡ self.old }
    {
        match self.label_place(place) {
            None => None,
            Some(label) => {
                let node = self.kept.node(label);
                if !self.listing.is_op(node) {
                    return None;
                }
                Some(node)
            }
        }
    }

    /// Removes the instruction at a kept place: its labels stay.
    pub fn remove(&mut self, place: u32)
        requires within { place < length self.old.gone }
        requires kept { is_gone self.old.gone place ≡ false }
        requires op { is_op_place (stands self.old place) ≡ true }
        ensures given { self.new.given ≡ self.old.given }
        ensures aims { self.new.aims ≡ self.old.aims }
        ensures gone { self.new.gone ≡ slice_set self.old.gone place true }
        ensures lines { lines_now self.new ≡ replaced_lines own_line (rank self.old.gone place) 1 [] (lines_now self.old) }
    {
        self.kept.remove(place);
        self.is_changed = true;
    }

    /// Redirects the branch at a kept place to another label.
    pub fn aim(&mut self, place: u32, name: Vec<u8>)
        requires within { place < length self.old.gone }
        requires kept { is_gone self.old.gone place ≡ false }
        requires op { is_op_place (stands self.old place) ≡ true }
        ensures given { self.new.given ≡ self.old.given }
        ensures gone { self.new.gone ≡ self.old.gone }
        ensures aims { self.new.aims ≡ slice_set self.old.aims place (Some name.items) }
        ensures lines { lines_now self.new ≡ aimed_lines line_mentioning (rank self.old.gone place) name.items (lines_now self.old) }
    {
        self.aims[place as usize] = Some(name);
        self.is_changed = true;
    }

    /// The listing of the lines now: the given one, where nothing was changed.
    pub fn into_listing(self, alloc: Global) -> Result<Listing, Memory>
        ensures { IfOk result (λ l. l ≡ lines_now self) }
    {
        let Draft {
            listing,
            kept,
            aims,
            is_changed,
        } = self;
        if !is_changed {
            return Ok(listing);
        }
        let lines = emit(alloc, listing.into_lines(), &kept, &aims)?;
        Listing::of(alloc, lines)
    }
}
