//! Shifts of eight words at once, by one amount or each by its own, with the carries that the manual gives.

ghost use Rattle.std.specs.Prelude.{◌≡◌, ℕ, false, ◌<◌, ◌≤◌, ◌==◌, if◌then◌else◌, slice_index};
ghost use Rattle.word_bits.specs.Word.{shift_of};
ghost use Rattle.word_bits.specs.declared.Shift.TheVariants as kinds;
ghost use Rattle.fingerprints.specs.WordLanes.{set_at, moved_at};

use crate::basic::{
    if_below, if_zero, left, left_each, low_five, or, right, right_each, same, taken, xor,
};
use std::simd::prelude::*;
use word_bits::Shift;

/// The values, and the carries out as bit 31 of each lane.
#[derive(Clone, Copy)]
pub struct Moved {
    pub value: u32x8,
    pub c: u32x8,
}

/// LSL_C of each lane by one amount, from 1 to 32.
#[inline(always)]
pub fn lsl(x: u32x8, n: u32) -> Moved
    requires some { 1 ≤ n }
    requires most { n ≤ 32 }
    ensures { (i : ℕ) → i < 8 → moved_at result i ≡ shift_of kinds.Lsl (slice_index x i) n false }
{
    let c = left(x, n - 1);
    Moved {
        value: left(c, 1),
        c,
    }
}

/// LSR_C of each lane by one amount, from 1 to 32.
#[inline(always)]
pub fn lsr(x: u32x8, n: u32) -> Moved
    requires some { 1 ≤ n }
    requires most { n ≤ 32 }
    ensures { (i : ℕ) → i < 8 → moved_at result i ≡ shift_of kinds.Lsr (slice_index x i) n false }
{
    let out = right(x, n - 1);
    Moved {
        value: right(out, 1),
        c: left(out, 31),
    }
}

/// ASR_C of each lane by one amount, from 1 to 32.
#[inline(always)]
pub fn asr(x: u32x8, n: u32) -> Moved
    requires some { 1 ≤ n }
    requires most { n ≤ 32 }
    ensures { (i : ℕ) → i < 8 → moved_at result i ≡ shift_of kinds.Asr (slice_index x i) n false }
{
    let fill = taken(same(0), right(x, 31));
    let out = right(xor(x, fill), n - 1);
    Moved {
        value: xor(right(out, 1), fill),
        c: left(xor(out, fill), 31),
    }
}

/// LSL_C, LSR_C, ASR_C or ROR_C of each lane of `x` by the lane of `n`, with bit 31 of the lane of `c` as the carry in.
#[inline(always)]
pub fn shift(kind: Shift, x: u32x8, n: u32x8, c: u32x8) -> Moved
    ensures { (i : ℕ) → i < 8 → moved_at result i ≡ shift_of kind (slice_index x i) (slice_index n i) (set_at c i) }
{
    match kind {
        Shift::Lsl => lsl_each(x, n, c),
        Shift::Lsr => lsr_each(x, n, c),
        Shift::Asr => asr_each(x, n, c),
        Shift::Ror => ror_each(x, n, c),
    }
}

/// The operand and the carry in where the lane of `n` is zero, and else the value and carry of a shift.
#[inline(always)]
fn kept_at_zero(n: u32x8, x: u32x8, c: u32x8, value: u32x8, out: u32x8) -> Moved
    ensures { (i : ℕ) → i < 8 → moved_at result i ≡ (if slice_index n i == 0 then (slice_index x i, set_at c i) else (slice_index value i, set_at out i)) }
{
    Moved {
        value: if_zero(n, x, value),
        c: if_zero(n, c, out),
    }
}

#[inline(always)]
fn lsl_each(x: u32x8, n: u32x8, c: u32x8) -> Moved
    ensures { (i : ℕ) → i < 8 → moved_at result i ≡ shift_of kinds.Lsl (slice_index x i) (slice_index n i) (set_at c i) }
{
    let less = taken(n, same(1));
    let out = if_below(less, 32, left_each(x, low_five(less)), same(0));
    kept_at_zero(n, x, c, left(out, 1), out)
}

#[inline(always)]
fn lsr_each(x: u32x8, n: u32x8, c: u32x8) -> Moved
    ensures { (i : ℕ) → i < 8 → moved_at result i ≡ shift_of kinds.Lsr (slice_index x i) (slice_index n i) (set_at c i) }
{
    let less = taken(n, same(1));
    let out = if_below(less, 32, right_each(x, low_five(less)), same(0));
    kept_at_zero(n, x, c, right(out, 1), left(out, 31))
}

#[inline(always)]
fn asr_each(x: u32x8, n: u32x8, c: u32x8) -> Moved
    ensures { (i : ℕ) → i < 8 → moved_at result i ≡ shift_of kinds.Asr (slice_index x i) (slice_index n i) (set_at c i) }
{
    let less = taken(n, same(1));
    let fill = taken(same(0), right(x, 31));
    let out = if_below(less, 32, right_each(xor(x, fill), low_five(less)), same(0));
    kept_at_zero(n, x, c, xor(right(out, 1), fill), left(xor(out, fill), 31))
}

#[inline(always)]
fn ror_each(x: u32x8, n: u32x8, c: u32x8) -> Moved
    ensures { (i : ℕ) → i < 8 → moved_at result i ≡ shift_of kinds.Ror (slice_index x i) (slice_index n i) (set_at c i) }
{
    let low = low_five(n);
    let value = or(
        right_each(x, low),
        left_each(x, low_five(taken(same(32), low))),
    );
    kept_at_zero(n, x, c, value, value)
}
