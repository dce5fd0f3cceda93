//! Sets of places as bits, which serve as worklists: members are taken least or greatest first, and a pass over all of them looks at each word once.
ghost use Rattle.std.specs.Prelude.{◌≡◌, ℕ, ◌<◌, true, false, length, replicate, slice_set, IfOk, IfSome, IfNone};
ghost use Rattle.kept_places.specs.Marks.{marked, IsLeast, IsGreatest};

use crate::words::{all_below, clear, first_used, has, highest, lowest, past_used, set};
use std::alloc::{AllocError, Global};
use std::marker::Model;

/// Which of so many places are in a set. Contracts see it as a mark of each place that says whether it is.
///
/// A word has the bits of 64 places. Before the word `least` and from the word `past` on all words are 0, so that taking all members, the least or the
/// greatest first, looks at each word once, and at none outside these bounds. Once a set is found empty, there is no word between them.
#[derive(Drop)]
pub struct PlaceSet {
    count: u32,
    words: Vec<u64>,
    least: usize,
    past: usize,
}

impl Model for PlaceSet {
    ghost use Rattle.std.specs.Prelude.{List, Bool};

    ghost Value = { List Bool };

    ghost use Rattle.kept_places.specs.Members.{marks_of, AreMembers};

    ghost view = { λ s. marks_of s.count s.words.items };

    ghost invariant = { AreMembers };
}

impl PlaceSet {
    /// The empty set, of so many places.
    pub fn new(alloc: Global, count: u32) -> Result<Self, AllocError>
        ensures { IfOk result (λ s. s ≡ replicate count false) }
    {
        let words = vec![in alloc; 0; count as usize / 64 + 1]?;
        Ok(PlaceSet {
            count,
            words,
            least: 0,
            past: 0,
        })
    }

    /// The full set, of so many places.
    pub fn full(alloc: Global, count: u32) -> Result<Self, AllocError>
        ensures { IfOk result (λ s. s ≡ replicate count true) }
    {
        let words = all_below(alloc, count as usize)?;
        let past = words.len();
        Ok(PlaceSet {
            count,
            words,
            least: 0,
            past,
        })
    }

    /// Puts a place into the set.
    pub fn insert(&mut self, place: u32)
        requires { place < length self.old }
        ensures { self.new ≡ slice_set self.old place true }
    {
        set(&mut self.words, place);
        let word = place as usize / 64;
        self.least = self.least.min(word);
        self.past = self.past.max(word + 1);
    }

    /// Takes a place out of the set, where it is in it.
    pub fn remove(&mut self, place: u32)
        requires { place < length self.old }
        ensures { self.new ≡ slice_set self.old place false }
    {
        clear(&mut self.words, place);
    }

    /// Whether a place is in the set.
    pub fn contains(&self, place: u32) -> bool
        requires { place < length self.now }
        ensures { result ≡ marked self.now place }
    {
        has(&self.words, place)
    }

    /// Takes the least place out of the set. None where the set is empty.
    pub fn take_least(&mut self) -> Option<u32>
        ensures least { IfSome result (λ p. IsLeast self.old p) }
        ensures taken { IfSome result (λ p. self.new ≡ slice_set self.old p false) }
        ensures none { IfNone result ((p : ℕ) → marked self.old p ≡ false) }
        ensures same { IfNone result (self.new ≡ self.old) }
    {
        self.least = first_used(&self.words, self.least, self.past);
        if self.least >= self.past {
            self.least = self.words.len();
            self.past = 0;
            return None;
        }
        let bit = lowest(self.words[self.least]);
        let place = self.least as u32 * 64 + bit;
        clear(&mut self.words, place);
        Some(place)
    }

    /// Takes the greatest place out of the set. None where the set is empty.
    pub fn take_greatest(&mut self) -> Option<u32>
        ensures greatest { IfSome result (λ p. IsGreatest self.old p) }
        ensures taken { IfSome result (λ p. self.new ≡ slice_set self.old p false) }
        ensures none { IfNone result ((p : ℕ) → marked self.old p ≡ false) }
        ensures same { IfNone result (self.new ≡ self.old) }
    {
        self.past = past_used(&self.words, self.least, self.past);
        if self.past <= self.least {
            self.least = self.words.len();
            self.past = 0;
            return None;
        }
        let word = self.past - 1;
        let bit = highest(self.words[word]);
        let place = word as u32 * 64 + bit;
        clear(&mut self.words, place);
        Some(place)
    }
}
