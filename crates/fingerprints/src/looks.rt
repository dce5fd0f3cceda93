//! Scans of columns for the states that agree with a given one: the first scan makes a short list of numbers, the others filter it.
ghost use Rattle.std.specs.Prelude.{◌≡◌, ℕ, ◌+◌, ◌<◌, ◌≤◌, ◌==◌, ◌&&◌, ◌||◌, not, true, false, IfOk, IfSome, OnOk, filter, get_or, length};
ghost use Rattle.std.specs.Int.{bit_at};
ghost use Rattle.thumb_instr.specs.Items.{has};
ghost use Rattle.seq_enum.specs.Alphabet.{numbers_from};
ghost use Rattle.fingerprints.specs.OutcomeColumns.{AreFull};
ghost use Rattle.fingerprints.specs.Looks.{flags_differ, keeps_word, AreAmong, AreThose, IsLike};

use crate::outcome_columns::{Columns, word_at};
use std::alloc::{AllocError, Global};
use std::simd::prelude::*;
use thumb_instr::Mask;
use thumb_instr::items::{C, N, V, Z};
use window_exec::WState;

/// How many words of a column are compared at once.
const ROW: usize = 64;

/// How many are compared at once inside a row that has the word.
const BLOCK: usize = 16;

/// Whether a column may have a word at one of the sixteen places from one on.
#[inline(always)]
fn is_in_block(column: &[u32], first: usize, word: u32) -> bool
    requires { first + 16 ≤ length column.now }
    ensures { result ≡ false → (k : ℕ) → first ≤ k → k < first + 16 → (get_or column.now k 0 == word) ≡ false }
{
    let block = u32x16::from_slice(&column[first..]);
    block.simd_eq(u32x16::splat(word)).to_bitmask() != 0
}

/// Whether a column may have a word at one of the 64 places from one on.
#[inline(always)]
fn is_in_row(column: &[u32], first: usize, word: u32) -> bool
    requires { first + 64 ≤ length column.now }
    ensures { result ≡ false → (k : ℕ) → first ≤ k → k < first + 64 → (get_or column.now k 0 == word) ≡ false }
{
    let row = u32x64::from_slice(&column[first..]);
    row.simd_eq(u32x64::splat(word)).to_bitmask() != 0
}

/// Appends the numbers from `first` on and below `end` at which a column has a word.
fn push_places(
    places: &mut Vec<u64>,
    column: &[u32],
    first: usize,
    end: usize,
    word: u32,
) -> Result<(), AllocError>
    requires ordered { first ≤ end }
    requires within { end ≤ length column.now }
    requires before { places.old.items ≡ filter (λ q. get_or column.now q 0 == word) (numbers_from 0 first) }
    ensures { OnOk result (places.new.items ≡ filter (λ q. get_or column.now q 0 == word) (numbers_from 0 end)) }
{
    for place in first..end {
        if column[place] == word {
            places.push(place as u64)?;
        }
    }
    Ok(())
}

/// Appends those of the sixteen numbers from `first` on at which a column has a word.
#[inline(always)]
fn push_block(
    places: &mut Vec<u64>,
    column: &[u32],
    first: usize,
    word: u32,
) -> Result<(), AllocError>
    requires within { first + 16 ≤ length column.now }
    requires before { places.old.items ≡ filter (λ q. get_or column.now q 0 == word) (numbers_from 0 first) }
    ensures { OnOk result (places.new.items ≡ filter (λ q. get_or column.now q 0 == word) (numbers_from 0 (first + 16))) }
{
    if is_in_block(column, first, word) {
        return push_places(places, column, first, first + BLOCK, word);
    }
    Ok(())
}

/// Appends those of the 64 numbers from `first` on at which a column has a word. Mostly there is none.
#[inline(always)]
fn push_row(
    places: &mut Vec<u64>,
    column: &[u32],
    first: usize,
    word: u32,
) -> Result<(), AllocError>
    requires within { first + 64 ≤ length column.now }
    requires before { places.old.items ≡ filter (λ q. get_or column.now q 0 == word) (numbers_from 0 first) }
    ensures { OnOk result (places.new.items ≡ filter (λ q. get_or column.now q 0 == word) (numbers_from 0 (first + 64))) }
{
    if is_in_row(column, first, word) {
        for block in 0..ROW / BLOCK {
            push_block(places, column, first + block * BLOCK, word)?;
        }
    }
    Ok(())
}

/// The numbers below a limit at which a column has a word.
fn places_of(alloc: Global, column: &[u32], limit: usize, word: u32) -> Result<Vec<u64>, AllocError>
    requires { limit ≤ length column.now }
    ensures { IfOk result (λ v. v.items ≡ filter (λ q. get_or column.now q 0 == word) (numbers_from 0 limit)) }
{
    let mut places = Vec::new(alloc);
    let rows = limit / ROW;
    for row in 0..rows {
        push_row(&mut places, column, row * ROW, word)?;
    }
    push_places(&mut places, column, rows * ROW, limit, word)?;
    Ok(places)
}

/// A bit of flags.
#[inline(always)]
fn bit(nzcv: u8, place: u8) -> u8
    requires { place < 4 }
    ensures { result ≡ bit_at nzcv place }
{
    (nzcv >> place) & 1
}

/// Whether some flag of a mask differs.
#[inline(always)]
fn flags_differ(left: u8, right: u8, mask: Mask) -> bool
    ensures { result ≡ flags_differ mask.items.bits left right }
{
    (mask.has(N) & (bit(left, 3) != bit(right, 3)))
        | (mask.has(Z) & (bit(left, 2) != bit(right, 2)))
        | (mask.has(C) & (bit(left, 1) != bit(right, 1)))
        | (mask.has(V) & (bit(left, 0) != bit(right, 0)))
}

/// The numbers below a limit at which no flag of a mask differs.
fn flag_places(
    alloc: Global,
    flags: &[u8],
    limit: usize,
    nzcv: u8,
    mask: Mask,
) -> Result<Vec<u64>, AllocError>
    requires { limit ≤ length flags.now }
    ensures { IfOk result (λ v. v.items ≡ filter (λ q. not (flags_differ mask.items.bits (get_or flags.now q 0) nzcv)) (numbers_from 0 limit)) }
{
    let mut places = Vec::new(alloc);
    for place in 0..limit {
        if !flags_differ(flags[place], nzcv, mask) {
            places.push(place as u64)?;
        }
    }
    Ok(places)
}

/// The first register of a mask that has a column and whose word at the end differs from that at the start: few sequences leave that word.
fn telling_register(k: u8, start: &WState, end: &WState, mask: Mask) -> Option<u8>
    requires { k ≤ 4 }
    ensures { IfSome result (λ register. (register < k) × (has mask.items.bits register ≡ true)) }
{
    for register in 0..k {
        if mask.has(register) && start.get(u32::from(register)) != end.get(u32::from(register)) {
            return Some(register);
        }
    }
    None
}

/// The numbers below a limit that agree with a state in one column: those that may agree in all items of a mask.
fn first_look(
    alloc: Global,
    columns: &Columns,
    k: u8,
    start: &WState,
    end: &WState,
    mask: Mask,
    limit: usize,
) -> Result<Vec<u64>, AllocError>
    requires few { k ≤ 4 }
    requires full { AreFull k columns.now }
    requires within { limit ≤ length columns.now.flags.items }
    ensures { IfOk result (λ v. AreAmong (IsLike columns.now start.now end.now mask.items.bits) limit v.items) }
{
    match telling_register(k, start, end, mask) {
        Some(register) => {
            let word = end.get(u32::from(register));
            places_of(alloc, columns.column(register), limit, word)
        }
        None => flag_places(alloc, &columns.flags, limit, end.nzcv, mask),
    }
}

/// Keeps only the numbers at which a column has a word; all of them where that isn't `wanted`.
fn keep_words(numbers: &mut Vec<u64>, wanted: bool, column: &[u32], other: u32, word: u32)
    ensures { numbers.new.items ≡ filter (keeps_word wanted column.now other word) numbers.old.items }
{
    numbers.retain(|q| !wanted || word_at(column, *q as usize, other) == word);
}

/// Keeps the numbers at which no flag of a mask differs.
fn keep_flags(numbers: &mut Vec<u64>, flags: &[u8], nzcv: u8, mask: Mask)
    ensures { numbers.new.items ≡ filter (λ q. not (flags_differ mask.items.bits (get_or flags.now q 0) nzcv)) numbers.old.items }
{
    numbers.retain(|q| match flags.get(*q as usize) {
        None => !flags_differ(0, nzcv, mask),
        Some(these) => !flags_differ(*these, nzcv, mask),
    });
}

/// The numbers below a limit, in ascending order, of the states that agree with `end` in each item of a mask.
pub(crate) fn alike(
    alloc: Global,
    columns: &Columns,
    k: u8,
    start: &WState,
    end: &WState,
    mask: Mask,
    limit: usize,
) -> Result<Vec<u64>, AllocError>
    requires few { k ≤ 4 }
    requires full { AreFull k columns.now }
    requires within { limit ≤ length columns.now.flags.items }
    ensures { IfOk result (λ v. AreThose (IsLike columns.now start.now end.now mask.items.bits) limit v.items) }
{
    let mut numbers = first_look(alloc, columns, k, start, end, mask, limit)?;
    keep_words(&mut numbers, mask.has(0), &columns.r0, start.r[0], end.r[0]);
    keep_words(&mut numbers, mask.has(1), &columns.r1, start.r[1], end.r[1]);
    keep_words(&mut numbers, mask.has(2), &columns.r2, start.r[2], end.r[2]);
    keep_words(&mut numbers, mask.has(3), &columns.r3, start.r[3], end.r[3]);
    keep_flags(&mut numbers, &columns.flags, end.nzcv, mask);
    Ok(numbers)
}
