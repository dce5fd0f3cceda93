//! The rows of a program, made of a listing and a naming: the branch target, literal and return word of each instruction.
ghost use Rattle.std.specs.Prelude.{◌≡◌, ◌<◌, ◌≤◌, ◌+◌, ◌/◌, ◌^◌, ℕ, vec_len, Some, slice_get, take, length, IfOk, if◌then◌else◌};
ghost use Rattle.thumb_model.specs.Listing.{code_of, call_count, is_call, places_of};
ghost use Rattle.thumb_model.specs.Steps.{aim_of, literal_at, literal_word, loads_literal, set_bit, target_at, word_of_mention, word_of_place, word_of_value};
ghost use Rattle.listing_parser.specs.Views.{mention_view, place_view, value_view};
ghost use Rattle.thumb_machine.specs.Acting.{target_of};
ghost use Rattle.thumb_machine.specs.Making.{mention_of};
ghost use Rattle.thumb_machine.specs.Naming.{naming_of};
ghost use Rattle.thumb_machine.specs.Running.{IsPlaceContents};

use crate::naming::Naming;
use crate::program::PlaceContents;
use crate::world::{Around, Target};
use listing_parser::{Listing, Mention, Place, Value};
use std::alloc::{AllocError, Global};
use thumb_instr::Instr;

/// A word with bit 0 set.
fn set_bit(word: u32) -> u32
    ensures { result ≡ set_bit word }
{
    word / 2 * 2 + 1
}

/// Whether an instruction is LDR (literal).
pub(crate) fn loads_literal(instr: &Instr) -> bool
    ensures { result ≡ loads_literal instr.now }
{
    match instr {
        Instr::Literal { .. } => true,
        _ => false,
    }
}

impl Naming {
    /// The word of a mention, with its number added.
    fn word_of(&self, mention: &Mention) -> u32
        ensures { result ≡ word_of_mention (naming_of self.now) (Some (mention_view mention.now)) }
    {
        self.word(mention.name.as_slice())
            .wrapping_add(mention.plus)
    }

    /// The word of what is mentioned, if anything is.
    fn word_of_mentioned(&self, mention: Option<&Mention>) -> u32
        ensures { result ≡ word_of_mention (naming_of self.now) (mention_of mention.entry) }
    {
        match mention {
            None => 0,
            Some(mention) => self.word_of(mention),
        }
    }

    /// The word of a data word.
    fn word_of_value(&self, value: &Value) -> u32
        ensures { result ≡ word_of_value (naming_of self.now) (value_view value.now) }
    {
        match value {
            Value::Number(number) => *number,
            Value::OfName(mention) => self.word_of(mention),
        }
    }

    /// The word of what is at a place: 0 where it is no data word.
    fn word_at(&self, listing: &Listing, place: u32) -> u32
        ensures { result ≡ word_of_place (naming_of self.now) (slice_get (places_of listing.now) place) }
    {
        match listing.place(place) {
            None => 0,
            Some(found) => self.word_in(found),
        }
    }

    /// The word of a place's contents: 0 for an instruction.
    fn word_in(&self, place: Place<'_>) -> u32
        ensures { result ≡ word_of_place (naming_of self.now) (Some (place_view place.entry)) }
    {
        match place {
            Place::Op { .. } => 0,
            Place::Word(value) => self.word_of_value(value),
        }
    }

    /// The target of a direct branch with this mention.
    fn target(&self, listing: &Listing, mention: Option<&Mention>) -> Target
        ensures { target_of result ≡ target_at (naming_of self.now) (mention_of mention.entry) (aim_of (code_of listing.now) (mention_of mention.entry)) }
    {
        match mention {
            None => Target::External { word: set_bit(0) },
            Some(mention) => match listing.place_of(mention.name.as_slice()) {
                Some(place) => Target::Inside { at: place },
                None => Target::External {
                    word: set_bit(self.word_of(mention)),
                },
            },
        }
    }

    /// The word that a literal load with this mention gets: that of the data word so many bytes after the label, or 0 where there is none.
    fn literal_word(&self, listing: &Listing, mention: &Mention) -> u32
        ensures { result ≡ literal_word (naming_of self.now) (code_of listing.now) (Some (mention_view mention.now)) }
    {
        match listing.label_place(mention.name.as_slice()) {
            None => 0,
            Some(label) => self.word_behind(listing, label, mention.plus),
        }
    }

    /// The word at the place that lies `plus` bytes behind a label's.
    fn word_behind(&self, listing: &Listing, label: u32, plus: u32) -> u32
        ensures { result ≡ word_of_place (naming_of self.now) (slice_get (places_of listing.now) (label + plus / 4)) }
    {
        match label.checked_add(plus / 4) {
            Some(place) => self.word_at(listing, place),
            None => past(listing),
        }
    }

    /// The value that a literal load or ADR gets.
    fn literal(&self, listing: &Listing, instr: &Instr, mention: Option<&Mention>) -> u32
        ensures { result ≡ literal_at (naming_of self.now) (code_of listing.now) instr.now (mention_of mention.entry) }
    {
        if !loads_literal(instr) {
            return self.word_of_mentioned(mention);
        }
        match mention {
            None => 0,
            Some(mention) => self.literal_word(listing, mention),
        }
    }

    /// The row of a place with so many calls before it.
    fn row(&self, listing: &Listing, place: Place<'_>, calls: usize) -> PlaceContents
        ensures { (p : ℕ) → calls ≡ call_count (take p (places_of listing.now)) → IsPlaceContents (naming_of self.now) (code_of listing.now) p (Some (place_view place.entry)) (Some result) }
    {
        match place {
            Place::Word(_) => PlaceContents::Data,
            Place::Op { instr, mention } => PlaceContents::Instruction {
                instr,
                around: Around {
                    target: self.target(listing, mention),
                    literal: self.literal(listing, &instr, mention),
                    link: self.return_word(calls),
                },
            },
        }
    }

    /// The rows of a listing.
    pub(crate) fn rows(
        &self,
        alloc: Global,
        listing: &Listing,
    ) -> Result<Vec<PlaceContents>, AllocError>
        ensures rows { IfOk result (λ rows. (p : ℕ) → IsPlaceContents (naming_of self.now) (code_of listing.now) p (slice_get (places_of listing.now) p) (slice_get rows.items p)) }
        ensures few { IfOk result (λ rows. vec_len rows < 2 ^ 32) }
    {
        let mut rows = Vec::new(alloc);
        let mut calls = 0usize;
        for place in 0..listing.place_count() {
            let Some(found) = listing.place(place) else {
                unreachable!()
            };
            rows.push(self.row(listing, found, calls))?;
            calls += calls_in(found);
        }
        Ok(rows)
    }
}

/// The word at a place past 2^32, which no listing has: 0.
fn past(listing: &Listing) -> u32
    ensures value { result ≡ 0 }
    ensures few { length (places_of listing.now) < 2 ^ 32 }
{
    // For the prover alone: the type of the answer says that the places are fewer than 2^32.
    let _count = listing.place_count();
    0
}

/// How many calls a place is: one or none.
pub(crate) fn calls_in(place: Place<'_>) -> usize
    ensures value { result ≡ (if is_call (place_view place.entry) then 1 else 0) }
    ensures few { result ≤ 1 }
{
    if place.is_call() { 1 } else { 0 }
}
