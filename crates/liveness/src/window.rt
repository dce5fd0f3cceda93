//! A window that gives way: what it reads and writes as a whole, and the ways of the instructions that take its places.
ghost use Rattle.std.specs.Prelude.{◌≡◌, ◌<◌, ◌≤◌, ◌-◌, ◌^◌, false, ℕ, length, get_or, slice_get, Some, None, Option};
ghost use Rattle.thumb_instr.specs.Items.{has, one_of};
ghost use Rattle.thumb_model.specs.Flow.{ways_of};
ghost use Rattle.liveness.specs.Passing.{reads_from, writes_from};
ghost use Rattle.liveness.specs.Window.{nth_or_nop, AreAscending, ArePut};

use crate::passing::{uses_in, writes_in};
use code_flow::{Ways, ways_of};
use thumb_instr::{HintOperation, Instr, Items};

/// The places of a window, from the first up to the end, and what its instructions read before they write it, and what they write.
#[derive(Clone, Copy)]
pub(crate) struct Window {
    pub(crate) first: u32,
    pub(crate) end: u32,
    pub(crate) reads: Items,
    pub(crate) writes: Items,
}

/// The window of the places in `first..end`, each of which goes on to the next.
pub(crate) fn window_of(ways: &[Option<Ways>], first: u32, end: u32) -> Window
    requires ordered { first ≤ end }
    requires within { end ≤ length ways.now }
    ensures first { result.first ≡ first }
    ensures end { result.end ≡ end }
    ensures reads { (x : ℕ) → has result.reads.bits x ≡ reads_from ways.now first (end - first) x }
    ensures writes { (x : ℕ) → has result.writes.bits x ≡ writes_from ways.now first (end - first) x }
{
    let mut reads = Items::none();
    let mut writes = Items::none();
    let mut at = end;
    while at > first {
        at -= 1;
        let here = ways[at as usize];
        let written = writes_in(here);
        reads = uses_in(here).union(reads.minus(written));
        writes = written.union(writes);
    }
    Window {
        first,
        end,
        reads,
        writes,
    }
}

/// The instruction of this number, or the nop that stands where a place is gone.
fn instr_at(new: &[Instr], number: usize) -> Instr
    ensures { result ≡ nth_or_nop new.now number }
{
    match new.get(number) {
        Some(instr) => *instr,
        None => Instr::Hint {
            hint: HintOperation::Nop,
        },
    }
}

/// Puts the ways of instructions at places, in order. The places that are left over are gone: they get those of a nop.
pub(crate) fn put_ways(ways: &mut [Option<Ways>], places: &[u32], new: &[Instr])
    requires few { length ways.old < 2 ^ 32 }
    requires ascending { AreAscending 0 places.now }
    requires within { (k : ℕ) → k < length places.now → get_or places.now k 0 < length ways.old }
    ensures put { ArePut places.now new.now ways.new }
    ensures others { (q : ℕ) → one_of q places.now ≡ false → slice_get ways.new q ≡ slice_get ways.old q }
{
    for number in 0..places.len() {
        let place = places[number];
        ways[place as usize] = Some(ways_of(&instr_at(new, number), None, place));
    }
}
