//! Tests of all code points of a listing, one after another in the order of its lines, without memory.
ghost use Rattle.std.specs.Prelude.{◌≡◌, ◌&&◌, ◌++◌, ◌+◌, ◌<◌, ◌^◌, ℕ, List, map, length};
ghost use Rattle.thumb_model.specs.Listing.{call_count, labels_at, places_in, places_of};
ghost use Rattle.thumb_model.specs.Naming.{ends_in_call, points_of, returns_from};
ghost use Rattle.listing_parser.specs.Views.{line_view, statement_view};
ghost use Rattle.thumb_machine.specs.Naming.{naming_of};
ghost use Rattle.thumb_machine.specs.Walking.{all_pass, name_points, points_from};

use crate::naming::Naming;
use listing_parser::{Listing, ListingLine, Statement, is_call};

/// A test of code points that come one after another.
pub(crate) trait PointTest {
    ghost use Rattle.std.specs.Prelude.{◌≡◌, ℕ, Bool};

    ghost passes: { Self → ℕ → ℕ → Bool };

    ghost after: { Self → ℕ → ℕ → Self };

    /// Whether the code point of that word and place passes. The test may remember it for the next ones.
    fn test(&mut self, word: u32, place: u32) -> bool
        ensures result { result ≡ passes self.old word place }
        ensures after { self.new ≡ after self.old word place };
}

/// Whether a statement is a call.
fn ends_in_call(statement: &Statement) -> bool
    ensures { result ≡ ends_in_call (statement_view statement.now) }
{
    match statement {
        Statement::Instruction { instr, .. } => is_call(instr),
        _ => false,
    }
}

/// The number of the next call after a line, given that of the next call from the line on.
fn next_call(line: &ListingLine, call: usize) -> usize
    requires { call < 2 ^ 32 }
    ensures { result ≡ call + call_count (places_in (line_view line.now).statement) }
{
    if ends_in_call(&line.statement) {
        call + 1
    } else {
        call
    }
}

impl Naming {
    /// Whether names at a place pass.
    fn names_pass<T: PointTest>(&self, test: &mut T, names: &[Vec<u8>], place: u32) -> bool
        ensures { (rest : List (ℕ × ℕ)) → all_pass T.passes T.after test.old (name_points (naming_of self.now) place (map (λ name. name.items) names.now) ++ rest) ≡ (result && all_pass T.passes T.after test.new rest) }
    {
        for name in names {
            if !test.test(self.word(name.as_slice()), place) {
                return false;
            }
        }
        true
    }

    /// Whether a line's labels pass, where they are code.
    fn labels_pass<T: PointTest>(
        &self,
        test: &mut T,
        listing: &Listing,
        names: &[Vec<u8>],
        place: u32,
    ) -> bool
        ensures { (rest : List (ℕ × ℕ)) → all_pass T.passes T.after test.old (points_of (naming_of self.now) (places_of listing.now) (labels_at place (map (λ name. name.items) names.now)) ++ rest) ≡ (result && all_pass T.passes T.after test.new rest) }
    {
        if !listing.is_op(place) {
            return true;
        }
        self.names_pass(test, names, place)
    }

    /// Whether the return point of a line passes, where it is call number `call`.
    fn return_passes<T: PointTest>(
        &self,
        test: &mut T,
        line: &ListingLine,
        call: usize,
        place: u32,
    ) -> bool
        requires { place + length (places_in (line_view line.now).statement) < 2 ^ 32 }
        ensures { (rest : List (ℕ × ℕ)) → all_pass T.passes T.after test.old (returns_from (naming_of self.now) call place (places_in (line_view line.now).statement) ++ rest) ≡ (result && all_pass T.passes T.after test.new rest) }
    {
        if !ends_in_call(&line.statement) {
            return true;
        }
        test.test(self.return_word(call), place + 1)
    }

    /// Whether all code points pass.
    pub(crate) fn points_pass<T: PointTest>(&self, test: &mut T, listing: &Listing) -> bool
        ensures { result ≡ all_pass T.passes T.after test.old (points_from (naming_of self.now) (places_of listing.now) 0 0 listing.now) }
    {
        // For the prover alone: the type of the answer says that the places are fewer than 2^32.
        let _count = listing.place_count();
        let mut place = 0usize;
        let mut call = 0usize;
        for line in listing.lines() {
            if !self.labels_pass(test, listing, line.names.as_slice(), place as u32) {
                return false;
            }
            if !self.return_passes(test, line, call, place as u32) {
                return false;
            }
            call = next_call(line, call);
            place += line.statement.places();
        }
        true
    }
}
