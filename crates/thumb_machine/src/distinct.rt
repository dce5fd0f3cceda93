//! Whether code points at different places have different words: in one pass where the words rise, as a layout's do, else pair by pair.
ghost use Rattle.std.specs.Prelude.{◌≡◌, true, ◌==◌, ◌||◌, IsTrue};
ghost use Rattle.std.specs.List.{list_all};
ghost use Rattle.thumb_model.specs.Listing.{code_of};
ghost use Rattle.thumb_model.specs.Naming.{points};
ghost use Rattle.thumb_machine.specs.Fitting.{all_apart, apart};
ghost use Rattle.thumb_machine.specs.Naming.{naming_of};

use crate::naming::Naming;
use crate::walking::PointTest;
use listing_parser::Listing;

/// The test that words rise from place to place: the greatest word before the last place, that place, and the greatest word so far.
#[derive(Drop)]
struct Rising {
    below: u32,
    place: u32,
    greatest: u32,
}

impl PointTest for Rising {
    ghost use Rattle.thumb_machine.specs.Fitting.{risen, rises};

    ghost passes = { rises };

    ghost after = { risen };

    fn test(&mut self, word: u32, place: u32) -> bool {
        if place != self.place {
            self.below = self.greatest;
            self.place = place;
        }
        self.greatest = self.greatest.max(word);
        self.below < word
    }
}

/// The test that code points are at this place or have another word.
#[derive(Drop)]
struct Apart {
    word: u32,
    place: u32,
}

impl PointTest for Apart {
    ghost use Rattle.thumb_machine.specs.Fitting.{apart};

    ghost passes = { λ t w p. apart (t.word, t.place) (w, p) };

    ghost after = { λ t w p. t };

    fn test(&mut self, word: u32, place: u32) -> bool {
        self.place == place || self.word != word
    }
}

/// The test that a code point passes `Apart` with every code point of a listing.
#[derive(Drop)]
struct EachApart<'a> {
    naming: &'a Naming,
    listing: &'a Listing,
}

impl PointTest for EachApart<'_> {
    ghost use Rattle.std.specs.List.{list_all};
    ghost use Rattle.thumb_model.specs.Listing.{code_of};
    ghost use Rattle.thumb_model.specs.Naming.{points};
    ghost use Rattle.thumb_machine.specs.Fitting.{apart};
    ghost use Rattle.thumb_machine.specs.Naming.{naming_of};

    ghost passes = { λ t w p. list_all (apart (w, p)) (points (naming_of t.naming.now) (code_of t.listing.now)) };

    ghost after = { λ t w p. t };

    fn test(&mut self, word: u32, place: u32) -> bool {
        self.naming.is_apart(self.listing, word, place)
    }
}

impl Naming {
    /// Whether the words rise from place to place.
    fn rises(&self, listing: &Listing) -> bool
        ensures { IsTrue result → all_apart (points (naming_of self.now) (code_of listing.now)) ≡ true }
    {
        let mut test = Rising {
            below: 0,
            place: 0,
            greatest: 0,
        };
        self.points_pass(&mut test, listing)
    }

    /// Whether each code point of the listing is at this place or has another word.
    fn is_apart(&self, listing: &Listing, word: u32, place: u32) -> bool
        ensures { result ≡ list_all (apart (word, place)) (points (naming_of self.now) (code_of listing.now)) }
    {
        let mut test = Apart { word, place };
        self.points_pass(&mut test, listing)
    }

    /// Whether each two code points have the same place or different words, compared pair by pair.
    fn are_apart(&self, listing: &Listing) -> bool
        ensures { result ≡ all_apart (points (naming_of self.now) (code_of listing.now)) }
    {
        let mut test = EachApart {
            naming: self,
            listing,
        };
        self.points_pass(&mut test, listing)
    }

    /// Whether code points at different places have different words. Where the words rise from place to place, as a layout's do, one pass decides it.
    pub(crate) fn are_distinct(&self, listing: &Listing) -> bool
        ensures { result ≡ all_apart (points (naming_of self.now) (code_of listing.now)) }
    {
        if self.rises(listing) {
            return true;
        }
        self.are_apart(listing)
    }
}
