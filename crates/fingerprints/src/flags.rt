//! Conversion between the flags of eight states as NZCV and the words from which `Lanes` computes them.

ghost use Rattle.std.specs.Prelude.{◌≡◌, ℕ, ◌<◌, ◌+◌, ◌*◌, slice_index};
ghost use Rattle.std.specs.Int.{bit_at, from_bool};
ghost use Rattle.fingerprints.specs.WordLanes.{zero_at};

use crate::basic::{added, if_zero, left, right, same};
use std::simd::prelude::*;

/// N, C and V from bit 31 of a lane, and Z from whether a lane is zero, as NZCV.
#[inline(always)]
pub fn nzcv(n: u32x8, z: u32x8, c: u32x8, v: u32x8) -> u32x8
    ensures { (i : ℕ) → i < 8 → slice_index result i ≡ bit_at (slice_index n i) 31 * 8 + from_bool (zero_at z i) * 4 + bit_at (slice_index c i) 31 * 2 + bit_at (slice_index v i) 31 }
{
    let high = added(left(right(n, 31), 3), if_zero(z, same(4), same(0)));
    added(high, added(left(right(c, 31), 1), right(v, 31)))
}

/// A bit of each lane, moved to bit 31.
#[inline(always)]
pub fn raised(nzcv: u32x8, bit: u32) -> u32x8
    requires { bit < 4 }
    ensures { (i : ℕ) → i < 8 → bit_at (slice_index result i) 31 ≡ bit_at (slice_index nzcv i) bit }
{
    left(nzcv, 31 - bit)
}

/// Zero in just the lanes in which a bit is set.
#[inline(always)]
pub fn cleared(nzcv: u32x8, bit: u32) -> u32x8
    requires { bit < 4 }
    ensures { (i : ℕ) → i < 8 → from_bool (zero_at result i) ≡ bit_at (slice_index nzcv i) bit }
{
    added(right(left(nzcv, 31 - bit), 31), same(u32::MAX))
}
