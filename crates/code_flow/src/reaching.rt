//! The places that runs may come to: from each code point along the ways of each place.
ghost use Rattle.std.specs.Prelude.{[], ◌∷◌, ◌≡◌, ℕ, ◌+◌, ◌<◌, ◌≤◌, true, List, length, IfOk, OnOk};
ghost use Rattle.thumb_model.specs.Listing.{Code, code_of, places_of};
ghost use Rattle.code_flow.specs.Marks.{AreMarks};
ghost use Rattle.kept_places.specs.Marks.{marked};
ghost use Rattle.thumb_model.specs.Flow.{Reached as IsReached};
ghost use Rattle.code_flow.specs.Reaching.{left, GoesTo, HasAllPoints, IsReaching, MarksMore};

use crate::leaving::ways;
use crate::marks::Reached;
use crate::points::all_points;
use crate::way::Next;
use listing_parser::{Listing, Memory};
use std::alloc::{AllocError, Global};
use step_ledger::{Ledger, Steps};

/// Marks of the places that are known to be reached, and those of them whose ways are still to be followed.
#[derive(Drop)]
pub(crate) struct Reaching {
    pub(crate) marks: Vec<bool>,
    pub(crate) waiting: Vec<u32>,
}

impl Reaching {
    /// The code points, whose ways are all still to be followed.
    fn from_points(alloc: Global, listing: &Listing) -> Result<Reaching, AllocError>
        ensures reaching { IfOk result (λ r. IsReaching (code_of listing.now) [] r) }
        ensures points { IfOk result (λ r. HasAllPoints (code_of listing.now) r.marks.items) }
        ensures left { IfOk result (λ r. left r ≡ length (places_of listing.now)) }
    {
        let points = all_points(alloc, listing)?;
        let count = listing.place_count();
        let mut reaching = Reaching {
            marks: vec![in alloc; false; count as usize]?,
            waiting: Vec::new(alloc),
        };
        for place in 0..count {
            if points[place as usize] {
                reaching.reach(place)?;
            }
        }
        Ok(reaching)
    }

    /// Marks a place, so that its ways are followed later, unless it is marked already or past the last place.
    fn reach(&mut self, place: u32) -> Result<(), AllocError>
        ensures reaching { OnOk result ((code : Code) (others : List ℕ) → IsReached code place → IsReaching code others self.old → IsReaching code others self.new) }
        ensures more { OnOk result (MarksMore self.old self.new) }
        ensures here { OnOk result (place < length self.old.marks.items → marked self.new.marks.items place ≡ true) }
    {
        let at = place as usize;
        if at >= self.marks.len() || self.marks[at] {
            return Ok(());
        }
        self.waiting.push(place)?;
        self.marks[at] = true;
        Ok(())
    }

    /// Marks the place to which a way leads, if it leads to a single one. The code points are marked already.
    fn follow(&mut self, next: Next) -> Result<(), AllocError>
        ensures reaching { OnOk result ((code : Code) (others : List ℕ) → ((q : ℕ) → GoesTo next q → IsReached code q) → IsReaching code others self.old → IsReaching code others self.new) }
        ensures more { OnOk result (MarksMore self.old self.new) }
        ensures there { OnOk result ((q : ℕ) → GoesTo next q → q < length self.old.marks.items → marked self.new.marks.items q ≡ true) }
    {
        match next {
            Next::Place(place) => self.reach(place),
            Next::Points | Next::Out => Ok(()),
        }
    }

    /// Marks the places to which the ways of a place lead.
    fn follow_all(&mut self, listing: &Listing, place: u32) -> Result<(), AllocError>
        requires place { marked self.old.marks.items place ≡ true }
        requires reaching { IsReaching (code_of listing.now) (place ∷ []) self.old }
        requires points { HasAllPoints (code_of listing.now) self.old.marks.items }
        ensures reaching { OnOk result (IsReaching (code_of listing.now) [] self.new) }
        ensures more { OnOk result (MarksMore self.old self.new) }
    {
        let Some(ways) = ways(listing, place) else {
            return Ok(());
        };
        self.follow(ways.first.next)?;
        if let Some(second) = ways.second {
            self.follow(second.next)?;
        }
        Ok(())
    }
}

/// The places of a listing that are reached.
///
/// A step is a visit of a place: a look at where its ways lead. Each place is visited at most once.
pub fn reached<L: Ledger>(
    alloc: Global,
    listing: &Listing,
    steps: &mut Steps<L>,
) -> Result<Reached, Memory>
    ensures reached { IfOk result (AreMarks (code_of listing.now)) }
    ensures cost { steps.new ≤ steps.old + length (places_of listing.now) }
{
    let mut reaching = Reaching::from_points(alloc, listing)?;
    while let Some(place) = reaching.waiting.pop() {
        steps.tick();
        reaching.follow_all(listing, place)?;
    }
    Ok(Reached {
        marks: reaching.marks,
    })
}
