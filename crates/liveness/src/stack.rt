//! A stack of places, each at most once. All memory is taken beforehand, so that a push can't fail.
ghost use Rattle.std.specs.Prelude.{◌≡◌, ◌<◌, ◌≤◌, ◌+◌, ◌==◌, ◌||◌, ◌++◌, ◌∷◌, [], ℕ, length, get_or, IfOk, IfSome, IfNone};
ghost use Rattle.thumb_instr.specs.Items.{one_of};

use std::alloc::{AllocError, Global};
use std::marker::Model;

/// Places below `room`, in the order in which they were pushed, each at most once.
#[derive(Drop)]
pub(crate) struct PlaceStack {
    places: Vec<u32>,
    marks: Vec<bool>,
}

impl Model for PlaceStack {
    ghost use Rattle.std.specs.Prelude.{length};
    ghost use Rattle.liveness.specs.Stack.{Stack};

    ghost Value = { Stack };

    ghost use Rattle.liveness.specs.Stacked.{AreStacked};

    ghost view = { λ s. record { places = s.places.items; room = length s.marks.items } };

    ghost invariant = { AreStacked };
}

impl PlaceStack {
    /// An empty stack for places below `room`.
    pub(crate) fn new(alloc: Global, room: usize) -> Result<Self, AllocError>
        ensures none { IfOk result (λ s. s.places ≡ []) }
        ensures room { IfOk result (λ s. s.room ≡ room) }
    {
        Ok(PlaceStack {
            places: Vec::with_capacity(alloc, room)?,
            marks: vec![in alloc; false; room]?,
        })
    }

    /// Pushes a place, unless it is there already.
    pub(crate) fn push(&mut self, place: u32)
        requires { place < self.old.room }
        ensures members { (q : ℕ) → one_of q self.new.places ≡ (one_of q self.old.places || (q == place)) }
        ensures longer { length self.new.places ≤ length self.old.places + 1 }
        ensures few { length self.new.places ≤ self.new.room }
        ensures room { self.new.room ≡ self.old.room }
    {
        if self.marks[place as usize] {
            return;
        }
        match self.places.push(place) {
            Ok(()) => {
                self.marks[place as usize] = true;
            }
            Err(_) => unreachable!(),
        }
    }

    /// Pops the place that was pushed last, if there is one.
    pub(crate) fn pop(&mut self) -> Option<u32>
        ensures taken { IfSome result (λ p. self.old.places ≡ self.new.places ++ p ∷ []) }
        ensures within { IfSome result (λ p. p < self.old.room) }
        ensures none { IfNone result (self.old.places ≡ []) }
        ensures same { IfNone result (self.new.places ≡ []) }
        ensures few { length self.new.places ≤ self.new.room }
        ensures room { self.new.room ≡ self.old.room }
    {
        let place = self.places.pop()?;
        self.marks[place as usize] = false;
        Some(place)
    }

    /// Whether a place is there.
    pub(crate) fn contains(&self, place: u32) -> bool
        requires { place < self.now.room }
        ensures { result ≡ one_of place self.now.places }
    {
        self.marks[place as usize]
    }

    /// How many places there are.
    pub(crate) fn len(&self) -> usize
        ensures { result ≡ length self.now.places }
    {
        self.places.len()
    }

    /// The place of this number, in the order in which they were pushed.
    pub(crate) fn at(&self, number: usize) -> u32
        requires { number < length self.now.places }
        ensures place { result ≡ get_or self.now.places number 0 }
        ensures within { result < self.now.room }
    {
        self.places[number]
    }
}
