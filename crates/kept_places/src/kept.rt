//! Which places are kept. The next kept one from a place on is found by links, with path compression; how many are gone before a place, by group counts.
ghost use Rattle.std.specs.Prelude.{◌≡◌, suc, ◌<◌, ◌≤◌, true, false, [], length, replicate, slice_set, IfNone, IfOk, IfSome, IsTrue, ◌↔◌};
ghost use Rattle.kept_places.specs.Marks.{is_gone, rank, IsNode, IsStart};

use crate::counting::{add_one, gone_among, total};
use crate::leading::{end, shorten, to_themselves};
use std::alloc::{AllocError, Global};
use std::marker::Model;

/// How many places a small group has.
const SMALL: usize = 64;
/// How many places a large group has.
const LARGE: usize = 4096;

/// So many places, of which some are gone. Contracts see it as a mark of each place that says whether it is gone.
///
/// `next` leads from a place that is gone to a later one, and `first` from a kept one to the first of the gone ones right before it. `small` and `large`
/// count the gone ones by groups.
#[derive(Drop)]
pub struct KeptPlaces {
    gone: Vec<bool>,
    next: Vec<u32>,
    first: Vec<u32>,
    small: Vec<u32>,
    large: Vec<u32>,
}

impl Model for KeptPlaces {
    ghost use Rattle.std.specs.Prelude.{List, Bool};

    ghost Value = { List Bool };

    ghost use Rattle.kept_places.specs.Kept.{IsKept};

    ghost view = { λ s. s.gone.items };

    ghost invariant = { IsKept };
}

impl KeptPlaces {
    /// So many places, all of which are kept.
    pub fn new(alloc: Global, count: u32) -> Result<Self, AllocError>
        ensures { IfOk result (λ s. s ≡ replicate count false) }
    {
        let places = count as usize;
        Ok(KeptPlaces {
            gone: vec![in alloc; false; places]?,
            next: to_themselves(alloc, count)?,
            first: to_themselves(alloc, count)?,
            small: vec![in alloc; 0; places / SMALL + 1]?,
            large: vec![in alloc; 0; places / LARGE + 1]?,
        })
    }

    /// How many places there are, with those that are gone.
    pub fn len(&self) -> u32
        ensures { result ≡ length self.now }
    {
        self.gone.len() as u32
    }

    /// Whether there is no place.
    pub fn is_empty(&self) -> bool
        ensures { IsTrue result ↔ (self.now ≡ []) }
    {
        self.gone.is_empty()
    }

    /// Whether a place is gone.
    pub fn is_gone(&self, place: u32) -> bool
        requires { place < length self.now }
        ensures { result ≡ is_gone self.now place }
    {
        self.gone[place as usize]
    }

    /// Removes a place, where it isn't gone already.
    pub fn remove(&mut self, place: u32)
        requires { place < length self.old }
        ensures { self.new ≡ slice_set self.old place true }
    {
        let at = place as usize;
        if self.gone[at] {
            return;
        }
        let behind = end(&self.next, place + 1);
        self.next[at] = behind;
        self.first[behind as usize] = self.first[at];
        add_one(&mut self.small, at / SMALL);
        add_one(&mut self.large, at / LARGE);
        self.gone[at] = true;
    }

    /// The least kept place from a place on, or `len` where none is left.
    pub fn node(&mut self, place: u32) -> u32
        requires { place ≤ length self.old }
        ensures node { IsNode self.old place result }
        ensures same { self.new ≡ self.old }
    {
        let node = end(&self.next, place);
        shorten(&mut self.next, place, node);
        node
    }

    /// The first of the places that are gone right before a kept one or the end, or that place itself.
    fn start(&self, place: u32) -> u32
        requires within { place ≤ length self.now }
        requires kept { is_gone self.now place ≡ false }
        ensures { IsStart self.now place result }
    {
        self.first[place as usize]
    }

    /// The kept place right before a kept one or the end, if there is one.
    pub fn previous(&self, place: u32) -> Option<u32>
        requires within { place ≤ length self.now }
        requires kept { is_gone self.now place ≡ false }
        ensures some { IfSome result (λ q. (q < place) × (is_gone self.now q ≡ false) × (suc (rank self.now q) ≡ rank self.now place)) }
        ensures none { IfNone result (rank self.now place ≡ 0) }
    {
        let start = self.start(place);
        if start == 0 { None } else { Some(start - 1) }
    }

    /// How many kept places come before a place: its number among the kept ones.
    pub fn number(&self, place: u32) -> u32
        requires { place ≤ length self.now }
        ensures { result ≡ rank self.now place }
    {
        let at = place as usize;
        let small = at / SMALL;
        let large = at / LARGE;
        let before = total(&self.large, 0, large);
        let between = total(&self.small, large * (LARGE / SMALL), small);
        let last = gone_among(&self.gone, small * SMALL, at);
        place - before - between - last
    }
}
