//! Moves the current block of a layout to that of a place.
ghost use Rattle.std.specs.Prelude.{◌≡◌, ◌≤◌, List};
ghost use Rattle.thumb_model.specs.Listing.{ListingLine as Listed};
ghost use Rattle.kept_layout.specs.Kept.{IsLaid, IsNear, Lays};

use crate::kept::KeptLayout;

impl KeptLayout {
    /// Moves on until the place is within the current block, or that is the last one.
    fn go_on(&mut self, place: usize)
        requires laid { IsLaid self.old }
        requires from { self.old.first ≤ place }
        ensures laid { IsLaid self.new }
        ensures blocks { self.new.blocks.items ≡ self.old.blocks.items }
        ensures base { self.new.base ≡ self.old.base }
        ensures near { IsNear self.new place }
    {
        let count = self.blocks.len();
        while self.here + 1 < count {
            if self.leap_on(place) {
                continue;
            }
            let here = self.here;
            let places = self.blocks[here].places;
            if place - self.first < places {
                return;
            }
            self.first += places;
            self.here = here + 1;
        }
    }

    /// Moves back until the current block doesn't begin after the place.
    fn go_back(&mut self, place: usize)
        requires { IsLaid self.old }
        ensures laid { IsLaid self.new }
        ensures blocks { self.new.blocks.items ≡ self.old.blocks.items }
        ensures base { self.new.base ≡ self.old.base }
        ensures from { self.new.first ≤ place }
    {
        while place < self.first {
            if self.leap_back(place) {
                continue;
            }
            let here = self.here - 1;
            self.first -= self.blocks[here].places;
            self.here = here;
        }
    }

    /// Moves to the block of a place. It costs a step for each group of blocks in between, and for each block of two groups at most.
    pub fn go_to(&mut self, place: usize)
        requires { IsLaid self.old }
        ensures lays { (lines : List Listed) → Lays self.old lines → Lays self.new lines }
        ensures base { self.new.base ≡ self.old.base }
        ensures near { IsNear self.new place }
    {
        self.go_back(place);
        self.go_on(place);
    }
}
