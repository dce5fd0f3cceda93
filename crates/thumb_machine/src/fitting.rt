//! Whether a naming fits a listing: only then does a word identify one place, as a branch by a register needs it.
ghost use Rattle.std.specs.Prelude.{◌≡◌, ◌<◌, ◌%◌, ◌^◌, ◌&&◌, ◌==◌, ℕ, Decides, Some, slice_index};
ghost use Rattle.std.specs.List.{list_all};
ghost use Rattle.thumb_model.specs.Listing.{Name, code_of, labels_from, places_of};
ghost use Rattle.thumb_model.specs.Naming.{Fits, is_in_range, points};
ghost use Rattle.listing_parser.specs.Views.{place_view};
ghost use Rattle.thumb_machine.specs.Fitting.{is_code_word, is_outside};
ghost use Rattle.thumb_machine.specs.Laid.{place_name};
ghost use Rattle.thumb_machine.specs.Naming.{naming_of};

use crate::laying::mentioned;
use crate::naming::Naming;
use crate::walking::PointTest;
use listing_parser::{Listing, Place};

/// Words are below 2^32, because of their type.
fn are_words(words: &[u32])
    ensures { (k : ℕ) → slice_index words.now k < 2 ^ 32 }
{
    // For the prover alone: a read shows the bounds of the type.
    let _ = words;
}

/// The test that words are odd and in the range of code.
#[derive(Drop)]
struct CodeWord<'a> {
    naming: &'a Naming,
}

impl PointTest for CodeWord<'_> {
    ghost use Rattle.thumb_machine.specs.Fitting.{is_code_word};
    ghost use Rattle.thumb_machine.specs.Naming.{naming_of};

    ghost passes = { λ t w p. is_code_word (naming_of t.naming.now) w };

    ghost after = { λ t w p. t };

    fn test(&mut self, word: u32, _place: u32) -> bool {
        word % 2 == 1 && self.naming.is_in_range(word)
    }
}

impl Naming {
    /// Whether a word is in the range of code.
    fn is_in_range(&self, word: u32) -> bool
        ensures { result ≡ is_in_range (naming_of self.now) word }
    {
        self.low <= word && word < self.high
    }

    /// Whether the words of all code points are odd and in the range.
    fn are_code(&self, listing: &Listing) -> bool
        ensures { result ≡ list_all (λ x. is_code_word (naming_of self.now) x.0) (points (naming_of self.now) (code_of listing.now)) }
    {
        let mut test = CodeWord { naming: self };
        self.points_pass(&mut test, listing)
    }

    /// Whether a name has a label or a word outside the range.
    fn is_outside(&self, listing: &Listing, name: &[u8]) -> bool
        ensures { result ≡ is_outside (naming_of self.now) (labels_from 0 listing.now) (Some name.now) }
    {
        listing.label_place(name).is_some() || !self.is_in_range(self.word(name))
    }

    /// Whether the name that a place mentions, if any, has a label or a word outside the range.
    fn mentions_outside(&self, listing: &Listing, place: Place<'_>) -> bool
        ensures { result ≡ is_outside (naming_of self.now) (labels_from 0 listing.now) (place_name (place_view place.entry)) }
    {
        match mentioned(place) {
            None => true,
            Some(mention) => self.is_outside(listing, mention.name.as_slice()),
        }
    }

    /// Whether the words of all external names are outside the range.
    fn are_outside(&self, listing: &Listing) -> bool
        ensures { result ≡ list_all (λ x. is_outside (naming_of self.now) (labels_from 0 listing.now) (place_name x)) (places_of listing.now) }
    {
        for place in 0..listing.place_count() {
            let Some(found) = listing.place(place) else {
                unreachable!()
            };
            if !self.mentions_outside(listing, found) {
                return false;
            }
        }
        true
    }

    /// Whether the range of code goes from an even address to an even address.
    fn is_even(&self) -> bool
        ensures { result ≡ ((self.now.low % 2 == 0) && (self.now.high % 2 == 0)) }
    {
        self.low % 2 == 0 && self.high % 2 == 0
    }

    /// The words of names and of return points are below 2^32, because of their type.
    fn words_fit(&self)
        ensures names { (name : Name) → (naming_of self.now).word_of name < 2 ^ 32 }
        ensures calls { (call : ℕ) → (naming_of self.now).return_word call < 2 ^ 32 }
    {
        are_words(self.words.values().as_slice());
        are_words(self.returns.as_slice());
    }

    /// Whether the naming fits the listing: its range goes from an even address to an even address; code points have odd words in it, those at different
    /// places different ones; and external names have words outside of it. No memory is needed. The time grows with the listing where the words rise from
    /// place to place, as those of a layout do; else with the square of the number of code points.
    pub fn fits(&self, listing: &Listing) -> bool
        ensures { Decides result (Fits (naming_of self.now) (code_of listing.now)) }
    {
        self.words_fit();
        if !self.is_even() {
            return false;
        }
        if !self.are_code(listing) {
            return false;
        }
        if !self.are_distinct(listing) {
            return false;
        }
        self.are_outside(listing)
    }
}
