//! The pool of numbers that operands may take. Which of them an operand takes depends on its range, so look-ups are by range.
ghost use Rattle.std.specs.Prelude.{◌≡◌, ◌≤◌, ◌<◌, slice_get, length, filter, IfSome, IsSome, IsTrue, ◌↔◌, Some, true};
ghost use Rattle.seq_enum.specs.Alphabet.{ascends_from, IsPlace, is_pool, inside};
ghost use Rattle.seq_enum.specs.Places.{place_of};

use arrayvec::ArrayVec;
use std::marker::Model;

/// The numbers that instructions of an alphabet may have: 1 to 16 distinct ones from 0 to 255, ascending.
#[derive(Drop)]
pub struct Pool {
    numbers: ArrayVec<u8, 16>,
}

impl Model for Pool {
    ghost use Rattle.std.specs.Prelude.{List, ℕ, IsTrue};
    ghost use Rattle.seq_enum.specs.Alphabet.{is_pool};

    ghost Value = { List ℕ };

    ghost view = { λ p. p.numbers.items };

    ghost invariant = { λ p. IsTrue (is_pool p.numbers.items) };
}

impl Pool {
    /// The pool of these numbers; None unless they are 1 to 16, each above the one before.
    pub fn new(numbers: &[u8]) -> Option<Pool>
        ensures valid { IsSome result ↔ IsTrue (is_pool numbers.now) }
        ensures value { IfSome result (λ p. p ≡ numbers.now) }
    {
        if is_pool(numbers) {
            Some(Pool {
                numbers: kept(numbers),
            })
        } else {
            None
        }
    }

    /// The numbers, in ascending order.
    pub fn numbers(&self) -> &[u8]
        ensures value { result.now ≡ self.now }
        ensures valid { IsTrue (is_pool self.now) }
    {
        self.numbers.as_slice()
    }

    /// How many of the numbers are from `least` to below `limit`.
    pub(crate) fn count(&self, least: u32, limit: u32) -> u64
        ensures value { result ≡ length (filter (inside least limit) self.now) }
        ensures small { result ≤ 16 }
    {
        count_among(&self.numbers, least, limit)
    }

    /// The number at a place among those from `least` to below `limit`.
    pub(crate) fn number(&self, least: u32, limit: u32, place: u64) -> Option<u32>
        ensures { result ≡ slice_get (filter (inside least limit) self.now) place }
    {
        match number_among(self.numbers(), least, limit, place) {
            None => None,
            Some(number) => Some(u32::from(number)),
        }
    }

    /// The place of a number among those from `least` to below `limit`.
    pub(crate) fn place(&self, least: u32, limit: u32, number: u32) -> Option<u64>
        ensures value { IsPlace result (filter (inside least limit) self.now) number }
        ensures small { IfSome result (λ i. i < 16) }
    {
        place_among(self.numbers(), least, limit, number)
    }
}

/// Whether these are the numbers of a pool.
#[tactic(auto, using(crate::proofs::Bounds::pools))]
fn is_pool(numbers: &[u8]) -> bool
    ensures { result ≡ is_pool numbers.now }
{
    if numbers.is_empty() {
        return false;
    }
    if numbers.len() > 16 {
        return false;
    }
    ascends(numbers)
}

/// Whether each number is above the one before.
#[tactic(auto, unfolding(crate::specs::Alphabet::ascends_from))]
fn ascends(numbers: &[u8]) -> bool
    ensures { result ≡ ascends_from 0 numbers.now }
{
    let mut low = 0u16;
    for x in numbers {
        if u16::from(*x) < low {
            return false;
        }
        low = u16::from(*x) + 1;
    }
    true
}

/// A copy of the numbers.
fn kept(numbers: &[u8]) -> ArrayVec<u8, 16>
    requires { length numbers.now ≤ 16 }
    ensures { result.items ≡ numbers.now }
{
    let mut kept = ArrayVec::new();
    for x in numbers {
        kept.push(*x);
    }
    kept
}

/// How many of the numbers are from `least` to below `limit`.
fn count_among(numbers: &[u8], least: u32, limit: u32) -> u64
    ensures value { result ≡ length (filter (inside least limit) numbers.now) }
    ensures small { result ≤ length numbers.now }
{
    numbers
        .iter()
        .filter(|x| least <= u32::from(**x) && u32::from(**x) < limit)
        .count() as u64
}

/// The number at a place among those from `least` to below `limit`.
fn number_among(numbers: &[u8], least: u32, limit: u32, place: u64) -> Option<u8>
    ensures { result ≡ slice_get (filter (inside least limit) numbers.now) place }
{
    let mut before = place;
    for x in numbers {
        if least <= u32::from(*x) && u32::from(*x) < limit {
            if before == 0 {
                return Some(*x);
            }
            before -= 1;
        }
    }
    None
}

/// The place of a number among those from `least` to below `limit`.
#[tactic(auto, unfolding(crate::specs::Places::place_of))]
fn place_among(numbers: &[u8], least: u32, limit: u32, number: u32) -> Option<u64>
    ensures value { result ≡ place_of number (filter (inside least limit) numbers.now) }
    ensures small { IfSome result (λ i. i < length numbers.now) }
{
    let mut before = 0u64;
    for x in numbers {
        if least <= u32::from(*x) && u32::from(*x) < limit {
            if u32::from(*x) == number {
                return Some(before);
            }
            before += 1;
        }
    }
    None
}
