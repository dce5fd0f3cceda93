//! A print is a 64-bit hash of the states that a sequence ends in, by which most sequences are told apart without comparing states.

ghost use Rattle.std.specs.Prelude.{◌≡◌, ℕ, ◌<◌, ◌≤◌, fold, map, bit_and, slice_index};
ghost use Rattle.thumb_model.specs.Effect.{AreOver};
ghost use Rattle.window_exec.specs.State.{values_of};
ghost use Rattle.fingerprints.specs.Print.{mixed, one_if, masked, nzcv_of, in_mask, print_from, print_after};
ghost use Rattle.fingerprints.specs.Columns.{lanes_from, states_of, states_in};
ghost use Rattle.fingerprints.specs.Words.{AreWordsAt};

use crate::columns::Column;
use crate::lanes::Lanes;
use thumb_instr::items::{C, N, V, Z};
use thumb_instr::{Mask, Seq};
use window_exec::States;

/// The print so far with one more word.
#[inline(always)]
fn mixed(print: u64, word: u32) -> u64
    ensures { result ≡ mixed print word }
{
    (print.rotate_left(5) ^ u64::from(word)).wrapping_mul(0x9E37_79B9_7F4A_7C15)
}

/// The print so far, with one more word if `wanted`.
#[inline(always)]
fn mixed_if(print: u64, wanted: bool, word: u32) -> u64
    ensures { result ≡ fold mixed print (one_if wanted word) }
{
    if wanted { mixed(print, word) } else { print }
}

/// The flags of a mask, N as bit 3 to V as bit 0.
fn flags_of(mask: Mask) -> u32
    ensures { result ≡ nzcv_of (in_mask mask.items.bits) }
{
    let high = u32::from(mask.has(N)) * 8 + u32::from(mask.has(Z)) * 4;
    high + u32::from(mask.has(C)) * 2 + u32::from(mask.has(V))
}

/// The print so far with the words of one more state.
#[inline(always)]
fn with_state(print: u64, words: &Words, i: usize, mask: Mask, flags: u32) -> u64
    requires { i < 8 }
    ensures { result ≡ fold mixed print (masked mask.items.bits (slice_index words.now.r0 i) (slice_index words.now.r1 i) (slice_index words.now.r2 i) (slice_index words.now.r3 i) (bit_and (slice_index words.now.nzcv i) flags)) }
{
    let mut h = print;
    h = mixed_if(h, mask.has(0), words.r0[i]);
    h = mixed_if(h, mask.has(1), words.r1[i]);
    h = mixed_if(h, mask.has(2), words.r2[i]);
    h = mixed_if(h, mask.has(3), words.r3[i]);
    mixed(h, words.nzcv[i] & flags)
}

/// The registers and flags of a column's states, lane by lane.
#[derive(Clone, Copy)]
struct Words {
    r0: [u32; 8],
    r1: [u32; 8],
    r2: [u32; 8],
    r3: [u32; 8],
    nzcv: [u32; 8],
}

/// The words of eight states.
#[inline(always)]
fn words_of(lanes: &Lanes) -> Words
    ensures { (i : ℕ) → i < 8 → AreWordsAt lanes.now result i }
{
    Words {
        r0: lanes.get(0).to_array(),
        r1: lanes.get(1).to_array(),
        r2: lanes.get(2).to_array(),
        r3: lanes.get(3).to_array(),
        nzcv: lanes.nzcv().to_array(),
    }
}

/// The print so far with the states of a column, from lane 0 on.
#[inline(always)]
pub(crate) fn with_column(print: u64, column: &Column, mask: Mask) -> u64
    ensures { result ≡ print_from mask.items.bits print (states_of column.now) }
{
    let words = words_of(&column.lanes);
    let flags = flags_of(mask);
    let mut h = print;
    for i in 0..column.count {
        h = with_state(h, &words, i, mask, flags);
    }
    h
}

/// Four prints.
#[derive(Clone, Copy)]
pub(crate) struct Prints {
    pub(crate) a: u64,
    pub(crate) b: u64,
    pub(crate) c: u64,
    pub(crate) d: u64,
}

/// Four prints so far, each with the states of lanes of its own. They are mixed in turn, so that
/// none waits for another.
#[inline(always)]
pub(crate) fn with_lanes(
    prints: Prints,
    a: &Lanes,
    b: &Lanes,
    c: &Lanes,
    d: &Lanes,
    count: usize,
    mask: Mask,
) -> Prints
    requires { count ≤ 8 }
    ensures a { result.a ≡ print_from mask.items.bits prints.a (lanes_from a.now 0 count) }
    ensures b { result.b ≡ print_from mask.items.bits prints.b (lanes_from b.now 0 count) }
    ensures c { result.c ≡ print_from mask.items.bits prints.c (lanes_from c.now 0 count) }
    ensures d { result.d ≡ print_from mask.items.bits prints.d (lanes_from d.now 0 count) }
{
    let first = words_of(a);
    let second = words_of(b);
    let third = words_of(c);
    let fourth = words_of(d);
    let flags = flags_of(mask);
    let mut h = prints;
    for i in 0..count {
        h = Prints {
            a: with_state(h.a, &first, i, mask, flags),
            b: with_state(h.b, &second, i, mask, flags),
            c: with_state(h.c, &third, i, mask, flags),
            d: with_state(h.d, &fourth, i, mask, flags),
        };
    }
    h
}

/// The print of the states of columns.
#[tactic(auto, using(crate::proofs::PrintLemmas::one_column), unfolding(crate::specs::Columns::states_in))]
pub(crate) fn print_in(columns: &[Column], mask: Mask) -> u64
    ensures { result ≡ print_from mask.items.bits 0 (states_in columns.now) }
{
    let mut h = 0;
    for column in columns {
        h = with_column(h, column, mask);
    }
    h
}

/// The print of what a sequence leaves in the states: the words of the mask's registers and the
/// mask's flags, state after state, mixed one after the other, eight states side by side.
pub fn print_of(seq: &Seq, states: &States, mask: Mask) -> u64
    requires { AreOver 4 seq.now }
    ensures { result ≡ print_after mask.items.bits (map values_of states.now) seq.now }
{
    let instrs = seq.as_slice();
    let mut rest = states.as_slice();
    let mut h = 0;
    while !rest.is_empty() {
        let (eight, more) = rest.split_at(rest.len().min(8));
        h = with_column(h, &Column::of(eight).run(instrs), mask);
        rest = more;
    }
    h
}
