//! The pairs found so far, each once, in order of first appearance.
ghost use Rattle.std.specs.Prelude.{◌≡◌, ◌≤◌, ◌<◌, ◌^◌, [], ◌∷◌, ℕ, List, length, map, MatchOption, OnOk};
ghost use Rattle.thumb_model.specs.Listing.{ListingLine};
ghost use Rattle.window_harvest.specs.Harvest.{Pair, WindowSpan, pair_of, StandsThere, IsPairAt, spots_at, AreAdded};
ghost use Rattle.window_harvest.specs.Keys.{IsKey, AreSeen, IsPut};
ghost use Rattle.window_harvest.specs.LimitsOf.{limits_of, AreOf};
ghost use Rattle.window_harvest.specs.Numberings.{AreNumberings};

use crate::keys::{Key, key_of};
use crate::numberings::Numberings;
use listing_parser::Memory;
use liveness::Live;
use rule_table::canonical;
use seq_enum::Pool;
use std::collections::HashSet;
use thumb_instr::{Instr, Items, Mask, Seq};
use window_runs::rows::WindowPlace;
use window_runs::runs::run;

/// How many registers (`regs`) and instructions (`left`) a window has at most, the numbers that it may have, and the numberings of the sequences over these.
#[derive(Clone, Copy)]
pub struct Limits<'a> {
    pub regs: u8,
    pub left: u8,
    pub pool: &'a Pool,
    pub numberings: &'a Numberings<'a>,
}

/// The pair of a window after which these items are live, and its key. None where it has no canonical form or is beyond the limits.
fn pair_at(limits: Limits<'_>, window: &[Instr], items: Items) -> Option<(Seq, Mask, Key)>
    requires regs { limits.regs ≤ 4 }
    requires numberings { AreNumberings limits.pool.now limits.numberings.now }
    ensures { (lines : List ListingLine) (spot : WindowSpan) → StandsThere lines spot window.now items.bits → MatchOption result ((pair : Pair) → IsPairAt (limits_of limits.entry) lines spot pair → ⊥) (λ f. IsPairAt (limits_of limits.entry) lines spot (pair_of (f.0, f.1)) × IsKey limits.entry.pool.now (pair_of (f.0, f.1)) f.2) }
{
    match canonical(window, items) {
        None => None,
        Some((seq, map, mask)) => match key_of(limits, map.len(), &seq, mask) {
            None => None,
            Some(key) => Some((seq, mask, key)),
        },
    }
}

/// Appends a pair, unless it is among the others.
fn add_pair(
    seen: &mut HashSet<Key>,
    pairs: &mut Vec<(Seq, Mask)>,
    seq: Seq,
    mask: Mask,
    key: Key,
) -> Result<(), Memory>
    ensures { OnOk result ((pool : List ℕ) → IsKey pool (pair_of (seq, mask)) key → AreSeen pool seen.old.keys (map pair_of pairs.old.items) → AreSeen pool seen.new.keys (map pair_of pairs.new.items) × IsPut (pair_of (seq, mask)) (map pair_of pairs.old.items) (map pair_of pairs.new.items)) }
{
    if seen.insert(key)? {
        pairs.push((seq, mask))?;
    }
    Ok(())
}

/// Adds the pair of a window after which these items are live, where it has one.
fn add_window(
    seen: &mut HashSet<Key>,
    pairs: &mut Vec<(Seq, Mask)>,
    limits: Limits<'_>,
    window: &[Instr],
    items: Items,
) -> Result<(), Memory>
    requires regs { limits.regs ≤ 4 }
    requires numberings { AreNumberings limits.pool.now limits.numberings.now }
    ensures { OnOk result ((lines : List ListingLine) (spot : WindowSpan) → StandsThere lines spot window.now items.bits → AreSeen limits.entry.pool.now seen.old.keys (map pair_of pairs.old.items) → AreSeen limits.entry.pool.now seen.new.keys (map pair_of pairs.new.items) × AreAdded (limits_of limits.entry) lines (spot ∷ []) (map pair_of pairs.old.items) (map pair_of pairs.new.items)) }
{
    match pair_at(limits, window, items) {
        None => Ok(()),
        Some((seq, mask, key)) => add_pair(seen, pairs, seq, mask, key),
    }
}

/// Adds the pairs of the windows that begin at a place, the shortest window first.
pub fn add_place(
    seen: &mut HashSet<Key>,
    pairs: &mut Vec<(Seq, Mask)>,
    limits: Limits<'_>,
    rows: &[WindowPlace],
    live: &Live,
    place: u32,
) -> Result<(), Memory>
    requires regs { limits.regs ≤ 4 }
    requires left { limits.left ≤ 5 }
    requires numberings { AreNumberings limits.pool.now limits.numberings.now }
    requires rows { length rows.now ≡ length live.now.after }
    requires few { length rows.now < 2 ^ 32 }
    requires place { place < length rows.now }
    ensures { OnOk result ((lines : List ListingLine) → AreOf lines rows.now live.now → AreSeen limits.entry.pool.now seen.old.keys (map pair_of pairs.old.items) → AreSeen limits.entry.pool.now seen.new.keys (map pair_of pairs.new.items) × AreAdded (limits_of limits.entry) lines (spots_at limits.entry.left place) (map pair_of pairs.old.items) (map pair_of pairs.new.items)) }
{
    let run = run(rows, place as usize, usize::from(limits.left));
    for last in 0..run.len() {
        let items = live.after(place + last as u32);
        add_window(seen, pairs, limits, &run.as_slice()[..last + 1], items)?;
    }
    Ok(())
}
