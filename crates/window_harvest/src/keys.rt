//! Keys of pairs, by which a pair that was seen is found again.
ghost use Rattle.std.specs.Prelude.{◌≡◌, ◌≤◌, ◌<◌, length, MatchOption};
ghost use Rattle.thumb_model.specs.Effect.{register_count};
ghost use Rattle.window_harvest.specs.Keys.{IsKey, Lies};
ghost use Rattle.window_harvest.specs.Numberings.{AreNumberings};

use crate::adding::Limits;
use thumb_instr::{Mask, Seq};

/// A pair: how many registers its window names, the number of the window in their alphabet, and the mask's bits.
#[derive(Clone, Copy, PartialEq, Eq, Hash)]
pub struct Key {
    pub registers: u8,
    pub number: u64,
    pub mask: u32,
}

/// The key of a pair whose window names `count` registers. None exactly where these are too many, or the window isn't over their alphabet.
pub fn key_of(limits: Limits<'_>, count: usize, seq: &Seq, mask: Mask) -> Option<Key>
    requires count { count ≡ register_count seq.now }
    requires some { 0 < length seq.now }
    requires short { length seq.now ≤ 5 }
    requires regs { limits.regs ≤ 4 }
    requires numberings { AreNumberings limits.pool.now limits.numberings.now }
    ensures { MatchOption result (Lies limits.entry.regs limits.entry.pool.now seq.now → ⊥) (λ key. Lies limits.entry.regs limits.entry.pool.now seq.now × IsKey limits.entry.pool.now (record { seq = seq.now; mask = mask.items.bits }) key) }
{
    if count == 0 {
        return None;
    }
    if count > usize::from(limits.regs) {
        return None;
    }
    let registers = count as u8;
    match limits.numberings.over(registers).number_of(seq) {
        None => None,
        Some(number) => Some(Key {
            registers,
            number,
            mask: mask.items.bits,
        }),
    }
}
