//! The sequence of a number. Shorter ones come first; among those of one length, the first instruction is the most significant digit.
ghost use Rattle.std.specs.Prelude.{◌≡◌, ◌≤◌, ◌<◌, ◌^◌, length, slice_get, Some};
ghost use Rattle.seq_enum.specs.Alphabet.{alphabet, words, sequences};

use crate::alphabet::{instr_at, size};
use crate::pool::Pool;
use arrayvec::ArrayVec;
use thumb_instr::{Instr, Seq};

/// The sequence of a number: None exactly where the number is of a sequence longer than five instructions.
#[tactic(auto, using(crate::proofs::Words::seqs))]
pub fn seq_at(k: u8, pool: &Pool, number: u64) -> Option<Seq>
    requires some { 0 < k }
    requires few { k ≤ 4 }
    ensures { result ≡ slice_get (sequences k pool.now) number }
{
    let size = size(k, pool);
    let mut left = number;
    for n in 0..6u32 {
        let count = size.pow(n);
        if left < count {
            return Some(word_at(k, pool, size, n, left));
        }
        left -= count;
    }
    None
}

/// The sequence at a place among those of its length.
fn word_at(k: u8, pool: &Pool, size: u64, count: u32, place: u64) -> Seq
    requires some { 0 < k }
    requires few { k ≤ 4 }
    requires size { size ≡ length (alphabet k pool.now) }
    requires short { count ≤ 5 }
    requires within { place < size ^ count }
    ensures { slice_get (words (alphabet k pool.now) count) place ≡ Some result }
{
    let mut instrs: ArrayVec<Instr, 5> = ArrayVec::new();
    let mut left = place;
    for _turn in 0..count {
        match instr_at(k, pool, left % size) {
            None => unreachable!(),
            Some(instr) => instrs.insert(0, instr),
        }
        left /= size;
    }
    match Seq::from_slice(instrs.as_slice()) {
        None => unreachable!(),
        Some(seq) => seq,
    }
}
