//! Clears items backwards from a window that gives way: an item that was cleared before a place is cleared before its predecessors too, unless these read
//! it themselves or it is read from there for sure.
ghost use Rattle.std.specs.Prelude.{[], ◌≡◌, ◌<◌, ◌≤◌, ◌+◌, ◌-◌, ◌&&◌, ◌||◌, true, false, ℕ, length, ◌⊎◌};
ghost use Rattle.thumb_instr.specs.Items.{has, one_of};
ghost use Rattle.liveness.specs.Live.{set_at};
ghost use Rattle.liveness.specs.Graph.{JumpsTo, ways_at, AreCallers, AreReturns};
ghost use Rattle.liveness.specs.Counted.{AreCounted};
ghost use Rattle.liveness.specs.Passing.{passes_points, passes_to, Keeps};
ghost use Rattle.liveness.specs.Walk.{cleared, start_at, ClearsOn, IsFitWalk};
ghost use Rattle.liveness.specs.Within.{AreWithin, IsInside};
ghost use Rattle.liveness.specs.Clears.{Begins, ClearsStep, IsSettledBy, ReturnsClear};

use crate::counted::PointSets;
use crate::graph::{Callers, Graph};
use crate::passing::{passed_to, passed_to_points, uses_in};
use crate::walk::{Walk, clear_at, empty_at, touch};
use crate::window::Window;
use code_flow::Ways;
use thumb_instr::Items;

/// Clears items, which were cleared before `place`, from the set of `before`, from where a way leads there.
fn clear_place(
    ways: &[Option<Ways>],
    forward: &[Items],
    before: u32,
    place: u32,
    items: Items,
    marks: &[bool],
    walk: &mut Walk,
)
    requires before { before < length ways.now }
    requires forward { length forward.now ≡ length ways.now }
    requires many { length walk.old.was.items ≡ length ways.now }
    requires fit { IsFitWalk marks.now (length ways.now) walk.old }
    ensures fit { IsFitWalk marks.now (length ways.now) walk.new }
    ensures on { ClearsOn walk.old walk.new }
    ensures told { (x : ℕ) → has items.bits x ≡ true → passes_to place (ways_at ways.now before) x ≡ true → has (set_at walk.new.before.sets.items before) x ≡ true → Keeps ways.now forward.now before x }
{
    let here = ways[before as usize];
    let lost = passed_to(place, here, items)
        .minus(uses_in(here))
        .minus(forward[before as usize]);
    clear_at(marks, walk, before, lost);
}

/// Clears items, which code points lost, from the set of a place from where a way leads to any code point.
fn clear_return(
    ways: &[Option<Ways>],
    forward: &[Items],
    before: u32,
    items: Items,
    marks: &[bool],
    walk: &mut Walk,
)
    requires before { before < length ways.now }
    requires forward { length forward.now ≡ length ways.now }
    requires many { length walk.old.was.items ≡ length ways.now }
    requires fit { IsFitWalk marks.now (length ways.now) walk.old }
    ensures fit { IsFitWalk marks.now (length ways.now) walk.new }
    ensures on { ClearsOn walk.old walk.new }
    ensures told { (x : ℕ) → has items.bits x ≡ true → passes_points (ways_at ways.now before) x ≡ true → has (set_at walk.new.before.sets.items before) x ≡ true → Keeps ways.now forward.now before x }
{
    let here = ways[before as usize];
    let lost = passed_to_points(here, items)
        .minus(uses_in(here))
        .minus(forward[before as usize]);
    clear_at(marks, walk, before, lost);
}

/// Clears what was cleared before a place from the place right before it, or, at the window's end, from the window's first place by what the old window did.
fn clear_before(
    ways: &[Option<Ways>],
    forward: &[Items],
    window: Window,
    place: u32,
    items: Items,
    marks: &[bool],
    walk: &mut Walk,
)
    requires place { place < length ways.now }
    requires window { window.first < window.end }
    requires end { window.end ≤ length ways.now }
    requires forward { length forward.now ≡ length ways.now }
    requires many { length walk.old.was.items ≡ length ways.now }
    requires fit { IsFitWalk marks.now (length ways.now) walk.old }
    ensures fit { IsFitWalk marks.now (length ways.now) walk.new }
    ensures on { ClearsOn walk.old walk.new }
    ensures told { (p x : ℕ) → p + 1 ≡ place → (p < window.first) ⊎ (window.end ≤ p) → has items.bits x ≡ true → passes_to place (ways_at ways.now p) x ≡ true → has (set_at walk.new.before.sets.items p) x ≡ true → Keeps ways.now forward.now p x }
    ensures window { (x : ℕ) → place ≡ window.end → has items.bits x ≡ true → has window.writes.bits x ≡ false → has (set_at walk.new.before.sets.items window.first) x ≡ true → (has window.reads.bits x ≡ true) ⊎ (has (set_at forward.now window.first) x ≡ true) }
{
    if place == window.end {
        let lost = items
            .minus(window.writes)
            .minus(window.reads)
            .minus(forward[window.first as usize]);
        clear_at(marks, walk, window.first, lost);
        return;
    }
    if place == 0 || (window.first < place && place < window.end) {
        return;
    }
    clear_place(ways, forward, place - 1, place, items, marks, walk);
}

/// Clears what was cleared before a place from the places that jump there.
fn clear_callers(
    ways: &[Option<Ways>],
    forward: &[Items],
    callers: &Callers,
    place: u32,
    items: Items,
    marks: &[bool],
    walk: &mut Walk,
)
    requires place { place < length ways.now }
    requires callers { AreWithin (length ways.now) callers.now }
    requires forward { length forward.now ≡ length ways.now }
    requires many { length walk.old.was.items ≡ length ways.now }
    requires fit { IsFitWalk marks.now (length ways.now) walk.old }
    ensures fit { IsFitWalk marks.now (length ways.now) walk.new }
    ensures on { ClearsOn walk.old walk.new }
    ensures told { AreCallers ways.now (length ways.now) callers.now → (p : ℕ) → JumpsTo ways.now place p → (x : ℕ) → has items.bits x ≡ true → passes_to place (ways_at ways.now p) x ≡ true → has (set_at walk.new.before.sets.items p) x ≡ true → Keeps ways.now forward.now p x }
{
    let mut rest = callers.last[place as usize];
    while rest > 0 {
        let jump = callers.jumps[rest as usize - 1];
        clear_place(ways, forward, jump.place, place, items, marks, walk);
        rest = jump.earlier;
    }
}

/// Clears what a code point lost from all places from where a way leads to any code point.
fn clear_returns(
    ways: &[Option<Ways>],
    forward: &[Items],
    returns: &[u32],
    items: Items,
    marks: &[bool],
    walk: &mut Walk,
)
    requires returns { (q : ℕ) → one_of q returns.now ≡ true → q < length ways.now }
    requires forward { length forward.now ≡ length ways.now }
    requires many { length walk.old.was.items ≡ length ways.now }
    requires fit { IsFitWalk marks.now (length ways.now) walk.old }
    ensures fit { IsFitWalk marks.now (length ways.now) walk.new }
    ensures on { ClearsOn walk.old walk.new }
    ensures told { (p x : ℕ) → one_of p returns.now ≡ true → has items.bits x ≡ true → passes_points (ways_at ways.now p) x ≡ true → has (set_at walk.new.before.sets.items p) x ≡ true → Keeps ways.now forward.now p x }
{
    for place in returns {
        clear_return(ways, forward, *place, items, marks, walk);
    }
}

/// Clears what a code point lost from the places that lead to any of them, unless some code point has it for sure. `gone` are the items that were cleared so.
fn clear_points(
    ways: &[Option<Ways>],
    graph: &Graph,
    forward: &PointSets,
    items: Items,
    gone: &mut Items,
    walk: &mut Walk,
)
    requires graph { IsInside (length ways.now) graph.now }
    requires forward { length forward.now.sets.items ≡ length ways.now }
    requires many { length walk.old.was.items ≡ length ways.now }
    requires fit { IsFitWalk graph.now.is_point.items (length ways.now) walk.old }
    ensures fit { IsFitWalk graph.now.is_point.items (length ways.now) walk.new }
    ensures on { ClearsOn walk.old walk.new }
    ensures gone { (x : ℕ) → has items.bits x ≡ true → (has gone.new.bits x ≡ true) ⊎ (has forward.now.points.bits x ≡ true) }
    ensures told { AreReturns ways.now (length ways.now) graph.now.returns.items → (x : ℕ) → (has gone.old.bits x ≡ true → ReturnsClear ways.now forward.now.sets.items walk.old x) → has gone.new.bits x ≡ true → ReturnsClear ways.now forward.now.sets.items walk.new x }
{
    let fresh = items.minus(forward.points).minus(*gone);
    *gone = gone.union(fresh);
    if fresh.bits == 0 {
        return;
    }
    clear_returns(
        ways,
        forward.sets.as_slice(),
        graph.returns.as_slice(),
        fresh,
        graph.is_point.as_slice(),
        walk,
    );
}

/// Clears what was cleared before a place, which was just popped, from its predecessors.
fn clear_step(
    ways: &[Option<Ways>],
    graph: &Graph,
    forward: &PointSets,
    window: Window,
    place: u32,
    gone: &mut Items,
    walk: &mut Walk,
)
    requires place { place < length ways.now }
    requires touched { one_of place walk.old.touched.places ≡ true }
    requires window { window.first < window.end }
    requires end { window.end ≤ length ways.now }
    requires graph { IsInside (length ways.now) graph.now }
    requires forward { length forward.now.sets.items ≡ length ways.now }
    requires many { length walk.old.was.items ≡ length ways.now }
    requires fit { IsFitWalk graph.now.is_point.items (length ways.now) walk.old }
    ensures fit { IsFitWalk graph.now.is_point.items (length ways.now) walk.new }
    ensures on { ClearsOn walk.old walk.new }
    ensures step { ClearsStep ways.now graph.now forward.now window place walk.old gone.old walk.new gone.new }
{
    let at = place as usize;
    let items = walk.was[at].minus(walk.before.sets[at]);
    let sets = forward.sets.as_slice();
    let marks = graph.is_point.as_slice();
    clear_before(ways, sets, window, place, items, marks, walk);
    clear_callers(ways, sets, &graph.callers, place, items, marks, walk);
    if marks[at] {
        clear_points(ways, graph, forward, items, gone, walk);
    }
}

/// Clears backwards until no place is on the stack.
pub(crate) fn clear(
    ways: &[Option<Ways>],
    graph: &Graph,
    forward: &PointSets,
    window: Window,
    walk: &mut Walk,
)
    requires window { window.first < window.end }
    requires end { window.end ≤ length ways.now }
    requires graph { IsInside (length ways.now) graph.now }
    requires forward { length forward.now.sets.items ≡ length ways.now }
    requires counted { AreCounted graph.now.is_point.items forward.now }
    requires many { length walk.old.was.items ≡ length ways.now }
    requires fit { IsFitWalk graph.now.is_point.items (length ways.now) walk.old }
    ensures fit { IsFitWalk graph.now.is_point.items (length ways.now) walk.new }
    ensures many { length walk.new.was.items ≡ length ways.now }
    ensures done { walk.new.stack.places ≡ [] }
    ensures start { (p : ℕ) → start_at walk.new p ≡ start_at walk.old p }
    ensures touched { (p : ℕ) → one_of p walk.old.touched.places ≡ true → one_of p walk.new.touched.places ≡ true }
    ensures settled { IsSettledBy ways.now graph.now forward.now window walk.old walk.new }
{
    let mut gone = Items::none();
    while let Some(place) = walk.stack.pop() {
        clear_step(ways, graph, forward, window, place, &mut gone, walk);
    }
}

/// Begins to clear: the sets of the window's places are emptied, but that of the first, which loses what was live for the old instructions alone. `old` is the
/// window as it was, and `fresh` as it is.
pub(crate) fn begin(marks: &[bool], forward: &[Items], old: Window, fresh: Window, walk: &mut Walk)
    requires window { old.first < old.end }
    requires end { old.end ≤ length forward.now }
    requires many { length walk.old.was.items ≡ length forward.now }
    requires fit { IsFitWalk marks.now (length forward.now) walk.old }
    requires untouched { walk.old.touched.places ≡ [] }
    ensures fit { IsFitWalk marks.now (length forward.now) walk.new }
    ensures many { length walk.new.was.items ≡ length forward.now }
    ensures begins { Begins old fresh forward.now walk.old walk.new }
{
    for place in old.first + 1..old.end {
        empty_at(marks, walk, place);
    }
    touch(marks, walk, old.first);
    let lost = old
        .reads
        .union(fresh.writes.minus(old.writes))
        .minus(fresh.reads)
        .minus(forward[old.first as usize]);
    clear_at(marks, walk, old.first, lost);
}
