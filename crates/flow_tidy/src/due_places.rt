//! The places that are due: those at which a change may have its cause.
ghost use Rattle.std.specs.Prelude.{◌≡◌, ◌<◌, ◌≤◌, ℕ, Some, true, length, slice_get};

use std::alloc::{AllocError, Global};
use std::marker::Model;

/// Which places of a listing are due, while some of them are removed. Contracts see a mark for each place. No place before `least` is due.
#[derive(Drop)]
pub(crate) struct DuePlaces {
    marks: Vec<bool>,
    least: usize,
}

impl Model for DuePlaces {
    ghost use Rattle.std.specs.Prelude.{Bool, List};

    ghost Value = { List Bool };

    ghost use Rattle.flow_tidy.specs.DuePlaces.{IsLeast};

    ghost view = { λ d. d.marks.items };

    ghost invariant = { λ d. IsLeast d.marks.items d.least };
}

/// The first place from one on that is marked, or the end.
fn past_free(marks: &[bool], from: usize) -> usize
    requires { from ≤ length marks.now }
    ensures from { from ≤ result }
    ensures within { result ≤ length marks.now }
    ensures free { (k : ℕ) → from ≤ k → k < result → slice_get marks.now k ≡ Some true → ⊥ }
{
    let mut place = from;
    while place < marks.len() && !marks[place] {
        place += 1;
    }
    place
}

impl DuePlaces {
    ghost use Rattle.std.specs.Prelude.{◌≡◌, ◌<◌, ◌≤◌, ◌^◌, ℕ, Some, true, false, IfOk, length, replicate, slice_get, slice_set};
    ghost use Rattle.std.specs.List.{remove};
    ghost use Rattle.flow_tidy.specs.DuePlaces.{before_is_due, IsLeast};

    /// All of `count` places are due.
    pub(crate) fn all(alloc: Global, count: u32) -> Result<Self, AllocError>
        ensures { IfOk result (λ d. d ≡ replicate count true) }
    {
        let marks = vec![in alloc; true; count as usize]?;
        Ok(DuePlaces { marks, least: 0 })
    }

    /// The places with these marks are due.
    pub(crate) fn of(marks: Vec<bool>) -> Self
        ensures { result ≡ marks.items }
    {
        DuePlaces { marks, least: 0 }
    }

    /// The least place that is due, or the end where none is.
    pub(crate) fn least(&mut self) -> usize
        ensures least { IsLeast self.new result }
        ensures same { self.new ≡ self.old }
    {
        self.least = past_free(&self.marks, self.least);
        self.least
    }

    /// The first place from one on that is due, or the end.
    pub(crate) fn next(&self, from: u32) -> u32
        requires few { length self.now < 2 ^ 32 }
        requires within { from ≤ length self.now }
        ensures from { from ≤ result }
        ensures within { result ≤ length self.now }
        ensures free { (k : ℕ) → from ≤ k → k < result → slice_get self.now k ≡ Some true → ⊥ }
    {
        past_free(&self.marks, from as usize) as u32
    }

    /// Whether a place is due.
    pub(crate) fn has(&self, place: u32) -> bool
        requires { place < length self.now }
        ensures { slice_get self.now place ≡ Some result }
    {
        self.marks[place as usize]
    }

    /// Marks a place as not due.
    pub(crate) fn take(&mut self, place: u32)
        requires { place < length self.old }
        ensures { self.new ≡ slice_set self.old place false }
    {
        self.marks[place as usize] = false;
    }

    /// Makes a place due.
    pub(crate) fn put(&mut self, place: usize)
        requires { place < length self.old }
        ensures { self.new ≡ slice_set self.old place true }
    {
        self.marks[place] = true;
        self.least = self.least.min(place);
    }

    /// Drops the mark of a place that is removed, and makes the place before it due.
    pub(crate) fn leave(&mut self, place: u32)
        requires { place < length self.old }
        ensures { self.new ≡ before_is_due place (remove self.old place) }
    {
        let at = place as usize;
        let _mark = self.marks.remove(at);
        self.least = self.least.min(at);
        if at > 0 {
            self.put(at - 1);
        }
    }

    /// Drops the mark of a place that is removed, and makes all others due.
    pub(crate) fn leave_all(&mut self, place: u32)
        requires { place < length self.old }
        ensures { self.new ≡ replicate (length (remove self.old place)) true }
    {
        let _mark = self.marks.remove(place as usize);
        self.marks.fill(true);
        self.least = 0;
    }
    /// Makes all places due.
    pub(crate) fn put_all(&mut self)
        ensures { self.new ≡ replicate (length self.old) true }
    {
        self.marks.fill(true);
        self.least = 0;
    }
}
