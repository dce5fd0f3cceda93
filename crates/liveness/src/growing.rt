//! Sets of live items grow until no place lacks one: a place is visited where it may lack something, and where its set grows those from which ways lead to it
//! are visited again.
ghost use Rattle.std.specs.Prelude.{[], ◌≡◌, ◌<◌, ◌≤◌, ◌+◌, ◌^◌, true, ℕ, length};
ghost use Rattle.thumb_instr.specs.Items.{has, one_of};
ghost use Rattle.liveness.specs.Live.{set_at};
ghost use Rattle.liveness.specs.Graph.{JumpsTo, some_leads, ways_at, AreCallers};
ghost use Rattle.liveness.specs.Counted.{AreCounted};
ghost use Rattle.liveness.specs.Grows.{GrowsAt, IsGrownBy};
ghost use Rattle.liveness.specs.Within.{AreWithin, IsInside};

use crate::counted::{PointSets, put};
use crate::graph::{Callers, Graph};
use crate::settling::some_leads;
use crate::stack::PlaceStack;
use crate::visiting::look;
use code_flow::Ways;

/// Pushes the place right before `place`, if a way leads from it to `place`.
fn tell_before(ways: &[Option<Ways>], place: u32, stack: &mut PlaceStack)
    requires place { place < length ways.now }
    requires room { stack.old.room ≡ length ways.now }
    requires few { length stack.old.places ≤ stack.old.room }
    ensures few { length stack.new.places ≤ stack.new.room }
    ensures room { stack.new.room ≡ stack.old.room }
    ensures kept { (q : ℕ) → one_of q stack.old.places ≡ true → one_of q stack.new.places ≡ true }
    ensures told { (q : ℕ) → q + 1 ≡ place → some_leads place (ways_at ways.now q) ≡ true → one_of q stack.new.places ≡ true }
{
    if place == 0 {
        return;
    }
    let before = place - 1;
    if !some_leads(place as usize, ways[before as usize]) {
        return;
    }
    stack.push(before);
}

/// Pushes the places that jump to `place`. `_ways` are those of all places.
fn tell_callers(_ways: &[Option<Ways>], callers: &Callers, place: u32, stack: &mut PlaceStack)
    requires place { place < length _ways.now }
    requires callers { AreWithin (length _ways.now) callers.now }
    requires room { stack.old.room ≡ length _ways.now }
    requires few { length stack.old.places ≤ stack.old.room }
    ensures few { length stack.new.places ≤ stack.new.room }
    ensures room { stack.new.room ≡ stack.old.room }
    ensures kept { (q : ℕ) → one_of q stack.old.places ≡ true → one_of q stack.new.places ≡ true }
    ensures told { AreCallers _ways.now (length _ways.now) callers.now → (q : ℕ) → JumpsTo _ways.now place q → one_of q stack.new.places ≡ true }
{
    let mut rest = callers.last[place as usize];
    while rest > 0 {
        let jump = callers.jumps[rest as usize - 1];
        stack.push(jump.place);
        rest = jump.earlier;
    }
}

/// Pushes the places from which a way leads to any code point.
fn tell_returns(returns: &[u32], stack: &mut PlaceStack)
    requires within { (q : ℕ) → one_of q returns.now ≡ true → q < stack.old.room }
    requires few { length stack.old.places ≤ stack.old.room }
    ensures few { length stack.new.places ≤ stack.new.room }
    ensures room { stack.new.room ≡ stack.old.room }
    ensures kept { (q : ℕ) → one_of q stack.old.places ≡ true → one_of q stack.new.places ≡ true }
    ensures told { (q : ℕ) → one_of q returns.now ≡ true → one_of q stack.new.places ≡ true }
{
    for place in returns {
        stack.push(*place);
    }
}

/// Visits a place that was just popped: if its set grows, its predecessors are pushed.
fn grow_at(
    ways: &[Option<Ways>],
    graph: &Graph,
    place: u32,
    before: &mut PointSets,
    stack: &mut PlaceStack,
)
    requires place { place < length ways.now }
    requires few { length ways.now < 2 ^ 32 }
    requires graph { IsInside (length ways.now) graph.now }
    requires counted { AreCounted graph.now.is_point.items before.old }
    requires many { length before.old.sets.items ≡ length ways.now }
    requires room { stack.old.room ≡ length ways.now }
    requires listed { length stack.old.places ≤ length ways.now }
    ensures counted { AreCounted graph.now.is_point.items before.new }
    ensures many { length before.new.sets.items ≡ length ways.now }
    ensures room { stack.new.room ≡ length ways.now }
    ensures few { length stack.new.places ≤ length ways.now }
    ensures grows { GrowsAt ways.now graph.now place before.old stack.old before.new stack.new }
{
    let at = place as usize;
    let points = before.points;
    let found = look(ways[at], before.sets.as_slice(), points);
    let old = before.sets[at];
    let new = old.union(found.before);
    if new.bits == old.bits {
        return;
    }
    put(graph.is_point.as_slice(), before, at, new);
    tell_before(ways, place, stack);
    tell_callers(ways, &graph.callers, place, stack);
    if before.points.bits == points.bits {
        return;
    }
    tell_returns(graph.returns.as_slice(), stack);
}

/// Visits places until none is on the stack.
pub(crate) fn grow(
    ways: &[Option<Ways>],
    graph: &Graph,
    before: &mut PointSets,
    stack: &mut PlaceStack,
)
    requires few { length ways.now < 2 ^ 32 }
    requires graph { IsInside (length ways.now) graph.now }
    requires counted { AreCounted graph.now.is_point.items before.old }
    requires many { length before.old.sets.items ≡ length ways.now }
    requires room { stack.old.room ≡ length ways.now }
    ensures counted { AreCounted graph.now.is_point.items before.new }
    ensures many { length before.new.sets.items ≡ length ways.now }
    ensures room { stack.new.room ≡ length ways.now }
    ensures done { stack.new.places ≡ [] }
    ensures more { (p x : ℕ) → has (set_at before.old.sets.items p) x ≡ true → has (set_at before.new.sets.items p) x ≡ true }
    ensures grown { IsGrownBy ways.now graph.now before.old.sets.items stack.old.places before.new.sets.items [] }
{
    while let Some(place) = stack.pop() {
        grow_at(ways, graph, place, before, stack);
    }
}
