//! The number of a sequence. The place at which each kind begins in the alphabet is computed once for all sequences that are numbered.
ghost use Rattle.std.specs.Prelude.{◌≡◌, ◌≤◌, ◌<◌, ◌+◌, ◌*◌, ◌^◌, length, take, IfSome, IsSome, Some, All};
ghost use Rattle.std.specs.List.{flat_map};
ghost use Rattle.std.specs.Option.{option_map};
ghost use Rattle.seq_enum.specs.Alphabet.{IsPlace, alphabet, members, rows, words, sequences};
ghost use Rattle.seq_enum.specs.Places.{rank, sum_below};
ghost use Rattle.seq_enum.specs.Numberings.{AreStarts, IsNumbering};

use crate::alphabet::{place_of, size};
use crate::members::size_of;
use crate::pool::Pool;
use crate::rows::rows;
use arrayvec::ArrayVec;
use thumb_instr::{Instr, Kind, Seq};

/// The numbering of the sequences over the first registers and a pool.
#[derive(Drop)]
pub struct Numbering<'a> {
    pub(crate) registers: u8,
    pub(crate) pool: &'a Pool,
    /// how many instructions of the alphabet come before those of each kind
    starts: ArrayVec<u64, 37>,
    size: u64,
}

impl<'a> Numbering<'a> {
    /// The numbering over the first `k` registers and a pool.
    pub fn new(k: u8, pool: &'a Pool) -> Self
        requires some { 0 < k }
        requires few { k ≤ 4 }
        ensures is { IsNumbering result }
        ensures registers { result.registers ≡ k }
        ensures pool { result.pool.now ≡ pool.now }
    {
        Numbering {
            registers: k,
            pool,
            starts: starts_of(rows(), k, pool),
            size: size(k, pool),
        }
    }

    /// The number of a sequence: None exactly where some instruction is not in the alphabet.
    pub fn number_of(&self, seq: &Seq) -> Option<u64>
        requires { IsNumbering self.now }
        ensures { IsPlace result (sequences self.now.registers self.now.pool.now) seq.now }
    {
        let instrs = seq.as_slice();
        let before = count_below(self.size, instrs.len() as u32);
        moved(before, self.place_of_word(instrs))
    }

    /// The place of a sequence among those of its length.
    fn place_of_word(&self, instrs: &[Instr]) -> Option<u64>
        requires is { IsNumbering self.now }
        requires short { length instrs.now ≤ 5 }
        ensures value { IsPlace result (words (alphabet self.now.registers self.now.pool.now) (length instrs.now)) instrs.now }
        ensures small { IfSome result (λ i. i < 2 ^ 62) }
    {
        let size = self.size;
        let mut place = 0;
        for instr in instrs {
            match place_of(self, instr) {
                None => return None,
                Some(digit) => place = place * size + digit,
            }
        }
        Some(place)
    }

    /// The place in the alphabet of the instruction that has this place among those of its kind.
    pub(crate) fn behind(&self, row: usize, place: Option<u64>) -> Option<u64>
        requires is { IsNumbering self.now }
        requires listed { row < 37 }
        requires small { IfSome place (λ i. i < 4096) }
        ensures value { result ≡ option_map (λ b. length (flat_map (members self.now.registers self.now.pool.now) (take row rows)) + b) place }
        ensures small { IfSome result (λ i. i < 16384) }
    {
        let before = self.before(row);
        Some(before + place?)
    }

    /// How many instructions of the alphabet come before those of a kind.
    fn before(&self, row: usize) -> u64
        requires is { IsNumbering self.now }
        requires listed { row < 37 }
        ensures value { result ≡ length (flat_map (members self.now.registers self.now.pool.now) (take row rows)) }
        ensures small { result ≤ 1952 }
    {
        self.starts[row]
    }
}

/// The number of a sequence: None exactly where some instruction is not in the alphabet.
pub fn number_of(k: u8, pool: &Pool, seq: &Seq) -> Option<u64>
    requires some { 0 < k }
    requires few { k ≤ 4 }
    ensures { IsPlace result (sequences k pool.now) seq.now }
{
    Numbering::new(k, pool).number_of(seq)
}

/// How many instructions come before those of each kind in a list.
fn starts_of(rows: &[Kind], k: u8, pool: &Pool) -> ArrayVec<u64, 37>
    requires few { k ≤ 4 }
    requires listed { All (λ t. IsSome (rank t)) rows.now }
    requires short { length rows.now ≤ 37 }
    ensures { AreStarts k pool.now rows.now result.items }
{
    let mut starts = ArrayVec::new();
    let mut total = 0;
    for row in rows {
        starts.push(total);
        total += size_of(*row, k, pool);
    }
    starts
}

/// A place moved up by `before`.
fn moved(before: u64, place: Option<u64>) -> Option<u64>
    requires few { before < 2 ^ 62 }
    requires small { IfSome place (λ i. i < 2 ^ 62) }
    ensures { result ≡ option_map (λ i. before + i) place }
{
    Some(before + place?)
}

/// How many sequences have fewer than `count` instructions, over an alphabet of `size` instructions.
#[tactic(auto, using(crate::proofs::Words::sums))]
pub fn count_below(size: u64, count: u32) -> u64
    requires few { size ≤ 1952 }
    requires short { count ≤ 6 }
    ensures value { result ≡ sum_below (λ n. size ^ n) count }
    ensures small { result ≤ count * 1952 ^ 5 }
{
    let mut total = 0;
    for n in 0..count {
        total += size.pow(n);
    }
    total
}
