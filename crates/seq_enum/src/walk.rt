//! A walk through all sequences in order of their numbers. Mostly only the last instruction changes, so that a step is cheap.
ghost use Rattle.std.specs.Prelude.{◌≡◌, ◌≤◌, ◌<◌, ◌+◌, ◌^◌, length, slice_get, Some, None, MatchOption, IfOk};
ghost use Rattle.std.specs.Bool.{OnTrue, OnFalse};
ghost use Rattle.seq_enum.specs.Alphabet.{alphabet, words, sequences_of};
ghost use Rattle.seq_enum.specs.Walks.{Stands, IsWalk};

use crate::alphabet::{instr_at, size};
use crate::pool::Pool;
use arrayvec::ArrayVec;
use std::alloc::{AllocError, Global};
use thumb_instr::Instr;

/// A walk through the sequences of at most five instructions of an alphabet, in order of their numbers.
#[derive(Drop)]
pub struct Walk<'a> {
    alphabet: &'a [Instr],
    instrs: ArrayVec<Instr, 5>,
    last: u64,
    number: u64,
}

impl<'a> Walk<'a> {
    /// A walk at sequence 0, which is empty.
    pub fn new(alphabet: &'a [Instr]) -> Self
        requires some { 0 < length alphabet.now }
        requires few { length alphabet.now ≤ 1952 }
        ensures stands { IsWalk result }
        ensures alphabet { result.alphabet.now ≡ alphabet.now }
        ensures number { result.number ≡ 0 }
    {
        Walk {
            alphabet,
            instrs: ArrayVec::new(),
            last: 0,
            number: 0,
        }
    }

    /// The number of the current sequence.
    pub fn number(&self) -> u64
        ensures { result ≡ self.now.number }
    {
        self.number
    }

    /// The current sequence.
    pub fn instrs(&self) -> &[Instr]
        requires { IsWalk self.now }
        ensures { slice_get (sequences_of self.now.alphabet.now) self.now.number ≡ Some result.now }
    {
        self.instrs.as_slice()
    }

    /// Goes on to the next sequence. False where there is none, and then it stands where it stood.
    pub fn next(&mut self) -> bool
        requires { IsWalk self.old }
        ensures stands { IsWalk self.new }
        ensures alphabet { self.new.alphabet.now ≡ self.old.alphabet.now }
        ensures more { OnTrue result (self.new.number ≡ self.old.number + 1) }
        ensures end { OnFalse result (slice_get (sequences_of self.old.alphabet.now) (self.old.number + 1) ≡ None) }
        ensures stays { OnFalse result (self.new.number ≡ self.old.number) }
    {
        let alphabet = self.alphabet;
        let next = self.last + 1;
        let count = self.instrs.len();
        if count > 0 && next < alphabet.len() as u64 {
            self.instrs.truncate(count - 1);
            self.instrs.push(alphabet[next as usize]);
            self.last = next;
            self.number += 1;
            return true;
        }
        match word_of(alphabet, self.number + 1) {
            None => false,
            Some((instrs, last)) => {
                self.instrs = instrs;
                self.last = last;
                self.number += 1;
                true
            }
        }
    }
}

/// The instructions of the alphabet, in order.
pub fn alphabet_instrs(alloc: Global, k: u8, pool: &Pool) -> Result<Vec<Instr>, AllocError>
    requires some { 0 < k }
    requires few { k ≤ 4 }
    ensures value { IfOk result (λ instrs. instrs.items ≡ alphabet k pool.now) }
    ensures some { IfOk result (λ instrs. 0 < length instrs.items) }
    ensures few { IfOk result (λ instrs. length instrs.items ≤ 1952) }
{
    let count = size(k, pool);
    let mut instrs = Vec::new(alloc);
    for place in 0..count {
        match instr_at(k, pool, place) {
            None => unreachable!(),
            Some(instr) => instrs.push(instr)?,
        }
    }
    Ok(instrs)
}

/// The sequence of a number, and the place of its last instruction.
fn word_of(alphabet: &[Instr], number: u64) -> Option<(ArrayVec<Instr, 5>, u64)>
    requires some { 0 < length alphabet.now }
    requires few { length alphabet.now ≤ 1952 }
    ensures { MatchOption result (slice_get (sequences_of alphabet.now) number ≡ None) (λ p. Stands alphabet.now p.0.items number p.1) }
{
    let size = alphabet.len() as u64;
    let mut left = number;
    for n in 0..6u32 {
        let count = size.pow(n);
        if left < count {
            return Some((instrs_at(alphabet, n, left), left % size));
        }
        left -= count;
    }
    None
}

/// The sequence at a place among those of `count` instructions.
pub fn instrs_at(alphabet: &[Instr], count: u32, place: u64) -> ArrayVec<Instr, 5>
    requires some { 0 < length alphabet.now }
    requires short { count ≤ 5 }
    requires within { place < length alphabet.now ^ count }
    ensures { slice_get (words alphabet.now count) place ≡ Some result.items }
{
    let size = alphabet.len() as u64;
    let mut instrs = ArrayVec::new();
    let mut left = place;
    for _turn in 0..count {
        instrs.insert(0, alphabet[(left % size) as usize]);
        left /= size;
    }
    instrs
}
