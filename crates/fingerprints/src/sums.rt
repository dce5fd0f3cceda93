//! AddWithCarry of the manual for eight pairs of words at once, with carry and overflow.

ghost use Rattle.std.specs.Prelude.{◌≡◌, ℕ, ◌<◌, slice_index};
ghost use Rattle.word_bits.specs.Word.{sum_of};
ghost use Rattle.fingerprints.specs.WordLanes.{set_at, sum_at};

use crate::basic::{added, and, not, or, right, xor};
use std::simd::prelude::*;

/// The values, the carries out and the overflows, the latter two as bit 31 of each lane.
#[derive(Clone, Copy)]
pub struct Sums {
    pub value: u32x8,
    pub c: u32x8,
    pub v: u32x8,
}

/// AddWithCarry of each two lanes, with bit 31 of the lane of `c` as the carry in.
#[inline(always)]
pub fn add_with_carry(x: u32x8, y: u32x8, c: u32x8) -> Sums
    ensures { (i : ℕ) → i < 8 → sum_at result i ≡ sum_of (slice_index x i) (slice_index y i) (set_at c i) }
{
    let value = added(added(x, y), right(c, 31));
    Sums {
        value,
        c: or(and(x, y), and(or(x, y), not(value))),
        v: and(xor(x, value), xor(y, value)),
    }
}
