//! A cache of where chains of branches end, valid as long as no instruction is removed: without it the same hops would be walked again from each place.
ghost use Rattle.std.specs.Prelude.{◌≡◌, ◌<◌, ℕ, false, Some, length, slice_get, IfNone, IfSome};
ghost use Rattle.thumb_model.specs.Listing.{code_of};
ghost use Rattle.kept_places.specs.Marks.{is_gone, rank};
ghost use Rattle.listing_draft.specs.Drafted.{lines_now};
ghost use Rattle.flow_tidy.specs.declared.chain_ends.Known.TheVariants.{Walked};
ghost use Rattle.flow_tidy.specs.DuePlaces.{HasEnd};
ghost use Rattle.flow_tidy.specs.Quick.{EndsAt, GoesTo};
ghost use Rattle.flow_tidy.specs.ChainEnds.{hop_at, known_in, AreEnds, AreWalked, IsLast};

use crate::drafted::hop;
use listing_draft::Draft;
use std::alloc::{AllocError, Global};
use std::marker::Model;

/// What is known of the chain that goes on from a place.
#[derive(Clone, Copy)]
pub(crate) enum Known {
    /// Nothing.
    Nothing,
    /// The walk that is under way passed the place.
    Walked,
    /// A place whose branch goes to the chain's end, as the chain's last branch does; None if the chain has no end.
    Last(Option<u32>),
}

/// What was found of a place, stamped with the number `latest` of that time.
#[derive(Clone, Copy)]
struct Stamped {
    stamp: u32,
    known: Known,
}

/// What is known of the chains that go on from the places of a draft. Contracts see a list with what is known of each.
///
/// What has a stamp below `since` is forgotten, and that a walk passed a place counts only if it has that walk's own stamp, the latest.
#[derive(Drop)]
pub(crate) struct Ends {
    found: Vec<Stamped>,
    since: u32,
    latest: u32,
}

impl Model for Ends {
    ghost use Rattle.std.specs.Prelude.{List, map};
    ghost use Rattle.flow_tidy.specs.declared.chain_ends.Known.{Known};

    ghost Value = { List Known };

    ghost use Rattle.flow_tidy.specs.ChainEnds.{known_in, IsStamped};

    ghost view = { λ e. map (known_in e.since e.latest) e.found.items };

    ghost invariant = { λ e. IsStamped e.since e.latest e.found.items };
}

/// What is known by what was found, where stamps count from `since` on and the walk under way has the stamp `latest`.
fn known_of(found: &Stamped, since: u32, latest: u32) -> Known
    ensures { result ≡ known_in since latest found.now }
{
    if found.stamp < since {
        return Known::Nothing;
    }
    match found.known {
        Known::Nothing => Known::Nothing,
        Known::Walked => {
            if found.stamp == latest {
                Known::Walked
            } else {
                Known::Nothing
            }
        }
        Known::Last(last) => Known::Last(last),
    }
}

impl Ends {
    ghost use Rattle.std.specs.Prelude.{◌≡◌, ◌<◌, ℕ, Some, IfOk, length, replicate, slice_get, slice_set};
    ghost use Rattle.listing_draft.specs.Drafted.{Drafted};
    ghost use Rattle.flow_tidy.specs.declared.chain_ends.Known.TheVariants.{Nothing, Walked};
    ghost use Rattle.flow_tidy.specs.ChainEnds.{AreEnds};

    /// Nothing is known of `count` places.
    pub(crate) fn none(alloc: Global, count: u32) -> Result<Self, AllocError>
        ensures { IfOk result (λ e. e ≡ replicate count Nothing) }
    {
        let nothing = Stamped {
            stamp: 0,
            known: Known::Nothing,
        };
        let found = vec![in alloc; nothing; count as usize]?;
        Ok(Ends {
            found,
            since: 0,
            latest: 0,
        })
    }

    /// Forgets all, and begins the stamps again at 0.
    fn clear(&mut self)
        ensures { self.new ≡ replicate (length self.old) Nothing }
    {
        self.found.fill(Stamped {
            stamp: 0,
            known: Known::Nothing,
        });
        self.since = 0;
        self.latest = 0;
    }

    /// Forgets all.
    pub(crate) fn forget(&mut self)
        ensures { self.new ≡ replicate (length self.old) Nothing }
    {
        match self.latest.checked_add(1) {
            None => self.clear(),
            Some(latest) => {
                self.latest = latest;
                self.since = latest;
            }
        }
    }

    /// Begins a walk, which has passed no place yet.
    fn begin(&mut self)
        ensures known { (d : Drafted) → AreEnds d self.old → AreEnds d self.new }
        ensures unwalked { (q : ℕ) → slice_get self.new q ≡ Some Walked → ⊥ }
    {
        match self.latest.checked_add(1) {
            None => self.clear(),
            Some(latest) => self.latest = latest,
        }
    }

    /// What is known of a place.
    fn at(&self, place: u32) -> Known
        requires { place < length self.now }
        ensures { slice_get self.now place ≡ Some result }
    {
        known_of(&self.found[place as usize], self.since, self.latest)
    }

    /// Notes what is known of a place.
    fn note(&mut self, place: u32, known: Known)
        requires { place < length self.old }
        ensures { self.new ≡ slice_set self.old place known }
    {
        self.found[place as usize] = Stamped {
            stamp: self.latest,
            known,
        };
    }
}

/// A kept place whose branch goes to the end of the chain that hops from the kept place `first` to the kept place `second`, if the chain has an end. The walk
/// along it stops at the last branch, at a place of which the end is known, or where it comes to a place again: then the chain is a cycle. All places that the
/// walk passed have the same end.
fn walk(draft: &mut Draft, ends: &mut Ends, first: u32, second: u32) -> Option<u32>
    requires within { (first < length draft.old.gone) × (second < length draft.old.gone) }
    requires kept { (is_gone draft.old.gone first ≡ false) × (is_gone draft.old.gone second ≡ false) }
    requires hop { hop_at (code_of (lines_now draft.old)) (rank draft.old.gone first) ≡ Some (rank draft.old.gone second) }
    requires known { AreEnds draft.old ends.old }
    requires unwalked { (q : ℕ) → slice_get ends.old q ≡ Some Walked → ⊥ }
    ensures last { IsLast draft.old first result }
    ensures walked { AreWalked draft.old ends.new result }
    ensures known { AreEnds draft.old ends.new }
    ensures same { draft.new ≡ draft.old }
{
    let mut at = first;
    let mut next = second;
    'walking: loop {
        match ends.at(at) {
            Known::Last(last) => return last,
            Known::Walked => return None,
            Known::Nothing => {
                ends.note(at, Known::Walked);
                match hop(draft, next) {
                    None => return Some(at),
                    Some(further) => {
                        at = next;
                        next = further;
                    }
                }
            }
        }
    }
}

/// Notes for the places from `first` on that the walk passed which place's branch goes to the end of the chain, if it has an end.
fn note_walked(draft: &mut Draft, ends: &mut Ends, first: u32, last: Option<u32>)
    requires within { first < length draft.old.gone }
    requires kept { is_gone draft.old.gone first ≡ false }
    requires walked { AreWalked draft.old ends.old last }
    requires known { AreEnds draft.old ends.old }
    ensures known { AreEnds draft.old ends.new }
    ensures same { draft.new ≡ draft.old }
{
    let mut at = first;
    for _hops in 0..draft.place_count() {
        let Known::Walked = ends.at(at) else {
            return;
        };
        ends.note(at, Known::Last(last));
        if last == Some(at) {
            return;
        }
        match hop(draft, at) {
            None => return,
            Some(next) => at = next,
        }
    }
}

/// A kept place whose branch goes to the end of the chain that the branch at a kept place begins, if the chain has an end. The first place is the kept one that
/// this branch goes to. What is found on the way is remembered.
pub(crate) fn chain_end(draft: &mut Draft, ends: &mut Ends, place: u32, first: u32) -> Option<u32>
    requires within { place < length draft.old.gone }
    requires kept { is_gone draft.old.gone place ≡ false }
    requires goes { GoesTo draft.old place first }
    requires known { AreEnds draft.old ends.old }
    ensures end { IfSome result (λ last. EndsAt draft.old place last) }
    ensures none { IfNone result (HasEnd (code_of (lines_now draft.old)) (rank draft.old.gone place) → ⊥) }
    ensures known { AreEnds draft.new ends.new }
    ensures same { draft.new ≡ draft.old }
{
    let second = hop(draft, first)?;
    ends.begin();
    let last = walk(draft, ends, first, second);
    note_walked(draft, ends, first, last);
    last
}
