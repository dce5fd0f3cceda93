//! The sets of live items while they shrink, with what the set of each touched place was at first.
ghost use Rattle.std.specs.Prelude.{◌≡◌, ◌≢◌, ◌<◌, ◌&&◌, not, true, false, ℕ, length};
ghost use Rattle.thumb_instr.specs.Items.{has, one_of};
ghost use Rattle.liveness.specs.Live.{set_at};
ghost use Rattle.liveness.specs.Walk.{start_at, ClearsOn, IsFitWalk};

use crate::counted::{PointSets, put};
use crate::stack::PlaceStack;
use thumb_instr::Items;

/// The sets so far, what those of touched places were at first, the places before which items are still to be cleared, and the touched places.
#[derive(Drop)]
pub(crate) struct Walk {
    pub(crate) before: PointSets,
    pub(crate) was: Vec<Items>,
    pub(crate) stack: PlaceStack,
    pub(crate) touched: PlaceStack,
}

/// Touches a place: notes what its set is, unless it is touched already.
pub(crate) fn touch(_marks: &[bool], walk: &mut Walk, place: u32)
    requires fit { IsFitWalk _marks.now (length walk.old.was.items) walk.old }
    requires place { place < length walk.old.was.items }
    ensures fit { IsFitWalk _marks.now (length walk.old.was.items) walk.new }
    ensures many { length walk.new.was.items ≡ length walk.old.was.items }
    ensures before { walk.new.before ≡ walk.old.before }
    ensures stack { walk.new.stack ≡ walk.old.stack }
    ensures here { one_of place walk.new.touched.places ≡ true }
    ensures kept { (q : ℕ) → one_of q walk.old.touched.places ≡ true → one_of q walk.new.touched.places ≡ true }
    ensures start { (q : ℕ) → start_at walk.new q ≡ start_at walk.old q }
{
    if walk.touched.contains(place) {
        return;
    }
    walk.was[place as usize] = walk.before.sets[place as usize];
    walk.touched.push(place);
}

/// Takes all items from the set of a place.
pub(crate) fn empty_at(marks: &[bool], walk: &mut Walk, place: u32)
    requires fit { IsFitWalk marks.now (length walk.old.was.items) walk.old }
    requires place { place < length walk.old.was.items }
    ensures fit { IsFitWalk marks.now (length walk.old.was.items) walk.new }
    ensures many { length walk.new.was.items ≡ length walk.old.was.items }
    ensures stack { walk.new.stack ≡ walk.old.stack }
    ensures touched { one_of place walk.new.touched.places ≡ true }
    ensures kept { (q : ℕ) → one_of q walk.old.touched.places ≡ true → one_of q walk.new.touched.places ≡ true }
    ensures start { (q : ℕ) → start_at walk.new q ≡ start_at walk.old q }
    ensures here { (x : ℕ) → has (set_at walk.new.before.sets.items place) x ≡ false }
    ensures elsewhere { (q : ℕ) → q ≢ place → set_at walk.new.before.sets.items q ≡ set_at walk.old.before.sets.items q }
{
    touch(marks, walk, place);
    put(marks, &mut walk.before, place as usize, Items::none());
}

/// Clears items from the set before a place. If it had some of them, the place is pushed, so that its predecessors are cleared too.
pub(crate) fn clear_at(marks: &[bool], walk: &mut Walk, place: u32, lost: Items)
    requires fit { IsFitWalk marks.now (length walk.old.was.items) walk.old }
    requires place { place < length walk.old.was.items }
    ensures fit { IsFitWalk marks.now (length walk.old.was.items) walk.new }
    ensures on { ClearsOn walk.old walk.new }
    ensures told { (x : ℕ) → has lost.bits x ≡ true → has (set_at walk.new.before.sets.items place) x ≡ false }
    ensures here { (x : ℕ) → has (set_at walk.new.before.sets.items place) x ≡ (has (set_at walk.old.before.sets.items place) x && not (has lost.bits x)) }
    ensures elsewhere { (q : ℕ) → q ≢ place → set_at walk.new.before.sets.items q ≡ set_at walk.old.before.sets.items q }
{
    let old = walk.before.sets[place as usize];
    let new = old.minus(lost);
    if new.bits == old.bits {
        return;
    }
    touch(marks, walk, place);
    put(marks, &mut walk.before, place as usize, new);
    walk.stack.push(place);
}
