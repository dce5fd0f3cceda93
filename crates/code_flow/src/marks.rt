//! Marks of the places that runs may come to, from every code point on: what isn't marked may go when a listing is tidied.
ghost use Rattle.std.specs.Prelude.{◌≡◌, ◌<◌, Some, length, slice_get};

use std::marker::Model;

/// Which places of a listing are reached: the code points, and each place to which a way of a reached one leads.
#[derive(Drop)]
pub struct Reached {
    pub(crate) marks: Vec<bool>,
}

impl Model for Reached {
    ghost use Rattle.std.specs.Prelude.{Bool, List};

    ghost Value = { List Bool };

    ghost view = { λ r. r.marks.items };
}

impl Reached {
    /// Whether this place, one of the listing's, is reached.
    pub fn at(&self, place: u32) -> bool
        requires { place < length self.now }
        ensures { slice_get self.now place ≡ Some result }
    {
        self.marks[place as usize]
    }
}
