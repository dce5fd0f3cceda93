//! Marks of what is reached. A place that stays is reached after a change exactly if it was before, so they are made once.
ghost use Rattle.std.specs.Prelude.{◌≡◌, IfOk, length};

use code_flow::Reached;
use listing_draft::Draft;
use std::alloc::{AllocError, Global};
use std::marker::Model;

/// Which places of a listing are reached, while some of them go.
#[derive(Drop)]
pub(crate) struct ReachedPlaces {
    marks: Vec<bool>,
}

impl Model for ReachedPlaces {
    ghost use Rattle.std.specs.Prelude.{Bool, List};

    ghost Value = { List Bool };

    ghost view = { λ m. m.marks.items };
}

impl ReachedPlaces {
    ghost use Rattle.std.specs.Prelude.{◌≡◌, ◌<◌, Some, IfOk, length, slice_get};
    ghost use Rattle.std.specs.List.{remove};
    ghost use Rattle.flow_tidy.specs.Quick.{left};

    /// The marks of all `count` places.
    pub(crate) fn of(alloc: Global, reached: &Reached, count: u32) -> Result<Self, AllocError>
        requires { count ≡ length reached.now }
        ensures { IfOk result (λ m. m ≡ reached.now) }
    {
        let mut marks = Vec::with_capacity(alloc, count as usize)?;
        for place in 0..count {
            marks.push(reached.at(place))?;
        }
        Ok(ReachedPlaces { marks })
    }

    /// The marks of the kept places of a draft, by those of all.
    pub(crate) fn kept(alloc: Global, reached: &Reached, draft: &Draft) -> Result<Self, AllocError>
        requires { length reached.now ≡ length draft.now.gone }
        ensures { IfOk result (λ m. m ≡ left draft.now.gone reached.now) }
    {
        let count = draft.place_count();
        let mut marks = Vec::with_capacity(alloc, count as usize)?;
        for place in 0..count {
            if draft.is_gone(place) {
                continue;
            }
            marks.push(reached.at(place))?;
        }
        Ok(ReachedPlaces { marks })
    }

    /// Whether this place, one of the listing's, is reached.
    pub(crate) fn at(&self, place: u32) -> bool
        requires { place < length self.now }
        ensures { slice_get self.now place ≡ Some result }
    {
        self.marks[place as usize]
    }

    /// Drops the mark of a place that is removed.
    pub(crate) fn leave(&mut self, place: u32)
        requires { place < length self.old }
        ensures { self.new ≡ remove self.old place }
    {
        let _mark = self.marks.remove(place as usize);
    }
}
