//! The places that wait for a visit, each at most once.
ghost use Rattle.std.specs.Prelude.{◌≡◌, ◌<◌, ℕ, length, true, false, IfOk, IfSome, IfNone, OnOk};
ghost use Rattle.kept_places.specs.Marks.{marked};
ghost use Rattle.liveness.specs.Waiting.{left, AreWaiting, WaitMore, IsTaken};

use std::alloc::{AllocError, Global};

/// Places that wait for a visit: those below `fresh`, of which none was visited yet, and those that are to be visited again. The last added of these is taken
/// first. All places that wait are marked.
#[derive(Drop)]
pub(crate) struct Waiting {
    pub(crate) fresh: u32,
    pub(crate) again: Vec<u32>,
    pub(crate) marks: Vec<bool>,
}

impl Waiting {
    /// So many places, all of which wait.
    pub(crate) fn all(alloc: Global, count: u32) -> Result<Waiting, AllocError>
        ensures waiting { IfOk result (λ w. AreWaiting w) }
        ensures as_many { IfOk result (λ w. length w.marks.items ≡ count) }
        ensures left { IfOk result (λ w. left w ≡ count) }
        ensures all { IfOk result (λ w. (q : ℕ) → q < count → marked w.marks.items q ≡ true) }
    {
        let marks = vec![in alloc; true; count as usize]?;
        Ok(Waiting {
            fresh: count,
            again: Vec::new(alloc),
            marks,
        })
    }

    /// Lets a place wait, where it doesn't yet.
    pub(crate) fn push(&mut self, place: u32) -> Result<(), AllocError>
        requires waiting { AreWaiting self.old }
        requires place { place < length self.old.marks.items }
        ensures more { OnOk result (WaitMore self.old self.new) }
        ensures here { OnOk result (marked self.new.marks.items place ≡ true) }
    {
        if self.marks[place as usize] {
            return Ok(());
        }
        self.again.push(place)?;
        self.marks[place as usize] = true;
        Ok(())
    }

    /// Takes the next place: the last one that is to be visited again, or else the last fresh one.
    pub(crate) fn pop(&mut self) -> Option<u32>
        requires waiting { AreWaiting self.old }
        ensures some { IfSome result (λ place. IsTaken place self.old self.new) }
        ensures none { IfNone result ((q : ℕ) → marked self.old.marks.items q ≡ false) }
    {
        if let Some(place) = self.again.pop() {
            self.marks[place as usize] = false;
            return Some(place);
        }
        if self.fresh == 0 {
            return None;
        }
        self.fresh -= 1;
        let place = self.fresh;
        self.marks[place as usize] = false;
        Some(place)
    }
}
