//! Updates the sets of live items of a listing in which instructions gave way to others, without working out all anew where it can.
ghost use Rattle.std.specs.Prelude.{◌≡◌, ◌≤◌, ◌+◌, ◌*◌, ◌<◌, ◌^◌, ◌++◌, ℕ, length, map, take, drop, slice_get, true, IfSome, OnOk, OnErr, Some};
ghost use Rattle.thumb_instr.specs.declared.instr.Instr.{Instr as AnInstr};
ghost use Rattle.thumb_model.specs.Listing.{code_of, places_of, plain};
ghost use Rattle.liveness.specs.Changes.{AreReadFrom, WasLive};
ghost use Rattle.liveness.specs.Kept.{replaced_sets};
ghost use Rattle.liveness.specs.Live.{IsLive};

use crate::finding::live;
use crate::flowing::flows_from;
use crate::kept::{NewSets, new_sets, read_ahead, set_before};
use crate::sets::Live;
use arrayvec::ArrayVec;
use listing_parser::{Listing, Memory, Place};
use std::alloc::Global;
use step_ledger::{Ledger, Steps};
use thumb_instr::{Instr, Items, Seq};

/// The instruction of a place, where it mentions nothing.
fn plain_at(listing: &Listing, place: u32) -> Option<Instr>
    ensures { IfSome result (λ i. slice_get (places_of listing.now) place ≡ Some (plain i)) }
{
    match listing.place(place) {
        Some(
            Place::Op {
                instr,
                mention: None,
            },
        ) => Some(instr),
        _ => None,
    }
}

/// The instructions of `count` places from `place` on, where they are at most five and mention nothing.
fn plain_from(listing: &Listing, place: u32, count: u32) -> Option<Seq>
    ensures as_many { IfSome result (λ is. length is ≡ count) }
    ensures stand { IfSome result (λ is. (k : ℕ) (i : AnInstr) → slice_get is k ≡ Some i → slice_get (places_of listing.now) (place + k) ≡ Some (plain i)) }
    ensures fits { IfSome result (λ is. place + count < 2 ^ 32) }
    ensures few { IfSome result (λ is. count ≤ 5) }
{
    let places = listing.place_count();
    if count > 5 || place > places || count > places - place {
        return None;
    }
    let mut instrs = Seq::new();
    for at in 0..count {
        instrs.push(plain_at(listing, place + at)?);
    }
    Some(instrs)
}

/// Whether each of these items is surely read in straight code before it is written, or else by the flows of the places from `behind` on.
fn are_read(listing: &Listing, instrs: &[Instr], items: Items, behind: u32) -> bool
    ensures { result ≡ true → AreReadFrom (code_of listing.now) instrs.now items behind }
{
    let missing = items.minus(set_before(instrs, Items::none()));
    if missing.bits == 0 {
        return true;
    }
    let ahead = flows_from(listing, behind);
    missing.minus(read_ahead(ahead.as_slice())).bits == 0
}

/// Removes the sets of `count` places from `place` on.
fn leave_out(sets: &mut Vec<Items>, place: usize, count: usize)
    requires { place + count ≤ length sets.old.items }
    ensures { sets.new.items ≡ take place sets.old.items ++ drop (place + count) sets.old.items }
{
    for _ in 0..count {
        sets.remove(place);
    }
}

/// Puts the sets of new instructions in place of those of as many places from `place` on.
fn put(before: &mut Vec<Items>, after: &mut Vec<Items>, place: usize, new: &[NewSets])
    requires before { place + length new.now ≤ length before.old.items }
    requires after { place + length new.now ≤ length after.old.items }
    ensures before { before.new.items ≡ take place before.old.items ++ (map (λ n. n.before) new.now ++ drop (place + length new.now) before.old.items) }
    ensures after { after.new.items ≡ take place after.old.items ++ (map (λ n. n.after) new.now ++ drop (place + length new.now) after.old.items) }
{
    for at in 0..new.len() {
        before[place + at] = new[at].before;
        after[place + at] = new[at].after;
    }
}

impl Live {
    /// The sets of the new instructions, if it is known that all other sets stay: the set before the window is as it was, and each of its items is read by
    /// the new instructions or by what follows them, so that none was live for the old instructions alone.
    fn kept(
        &self,
        listing: &Listing,
        place: u32,
        old: u32,
        new: u32,
    ) -> Option<ArrayVec<NewSets, 5>>
        requires { WasLive listing.now place old new self.now }
        ensures few { IfSome result (λ sets. length sets.items ≤ old) }
        ensures live { IfSome result (λ sets. IsLive (code_of listing.now) (replaced_sets place old sets.items self.now)) }
    {
        if new >= old {
            return None;
        }
        let instrs = plain_from(listing, place, new)?;
        let before = self.before[place as usize];
        let after = self.after[place as usize + old as usize - 1];
        if set_before(instrs.as_slice(), after).bits != before.bits {
            return None;
        }
        if !are_read(listing, instrs.as_slice(), before, place + new) {
            return None;
        }
        Some(new_sets(instrs.as_slice(), after))
    }

    /// Puts the sets of new instructions in place of those of `count` places from `place` on.
    fn give_way(&mut self, place: usize, count: usize, new: &[NewSets])
        requires before { place + count ≤ length self.old.before }
        requires after { place + count ≤ length self.old.after }
        requires few { length new.now ≤ count }
        ensures { self.new ≡ replaced_sets place count new.now self.old }
    {
        put(&mut self.before, &mut self.after, place, new);
        leave_out(&mut self.before, place + new.len(), count - new.len());
        leave_out(&mut self.after, place + new.len(), count - new.len());
    }

    /// Updates the sets for the listing in which `new` instructions stand at the place where `old` stood. They are then what `live` gives.
    ///
    /// Where it is known that all other sets stay, only those of the new instructions are put in, without a visit of a place. Else all are worked out anew,
    /// in the steps of `live`. Where memory runs out, the sets stay as they were.
    pub fn change<L: Ledger>(
        &mut self,
        alloc: Global,
        listing: &Listing,
        place: u32,
        old: u32,
        new: u32,
        steps: &mut Steps<L>,
    ) -> Result<(), Memory>
        requires { WasLive listing.now place old new self.old }
        ensures live { OnOk result (IsLive (code_of listing.now) self.new) }
        ensures unchanged { OnErr result (self.new ≡ self.old) }
        ensures cost { steps.new ≤ steps.old + (19 * length (places_of listing.now) + 1) * length (places_of listing.now) }
    {
        if let Some(sets) = self.kept(listing, place, old, new) {
            self.give_way(place as usize, old as usize, sets.as_slice());
            return Ok(());
        }
        *self = live(alloc, listing, steps)?;
        Ok(())
    }
}
