//! What is kept of a code, and how it changes where a window gives way: first what is read for sure is worked out anew, then what the window alone kept live is
//! cleared, and what is still read grows back.
ghost use Rattle.std.specs.Prelude.{[], ◌≡◌, ◌<◌, ◌≤◌, ◌+◌, ◌-◌, ◌^◌, ◌↔◌, ◌⊎◌, slice_get, true, false, ℕ, length, get_or, List};
ghost use Rattle.thumb_instr.specs.declared.instr.Instr.{Instr as AnInstr};
ghost use Rattle.thumb_instr.specs.Items.{has, one_of};
ghost use Rattle.thumb_model.specs.Listing.{Code};
ghost use Rattle.thumb_model.specs.Flow.{Reads};
ghost use Rattle.kept_places.specs.Marks.{marked};
ghost use Rattle.liveness.specs.Graph.{IsGraph};
ghost use Rattle.liveness.specs.Live.{set_at};
ghost use Rattle.liveness.specs.Ahead.{IsAhead};
ghost use Rattle.liveness.specs.Grows.{IsGrowing};
ghost use Rattle.liveness.specs.KeptLive.{parts_of, IsFitKept, IsIdle, IsKeptLive, IsShrunkBy, LosesAt};
ghost use Rattle.liveness.specs.Passing.{reads_from, writes_from};
ghost use Rattle.liveness.specs.Walk.{start_at};
ghost use Rattle.liveness.specs.Window.{AreAscending, ArePut, IsWindowExchange};
ghost use Rattle.liveness.specs.Within.{IsWired};

use crate::clearing::{begin, clear};
use crate::counted::PointSets;
use crate::forward::renew;
use crate::graph::Graph;
use crate::growing::grow;
use crate::walk::Walk;
use crate::window::{Window, put_ways, window_of};
use code_flow::Ways;
use kept_places::PlaceSet;
use std::marker::Model;
use thumb_instr::{Instr, Items};

/// The ways of each place now, what leads to each, what is read from each for sure (`forward`), and the live items before each (`walk`). Between calls
/// `due` is empty.
#[derive(Drop)]
pub(crate) struct KeptFlow {
    pub(crate) ways: Vec<Option<Ways>>,
    pub(crate) graph: Graph,
    pub(crate) forward: PointSets,
    pub(crate) due: PlaceSet,
    pub(crate) walk: Walk,
}

/// The items that are live before each place of a code, kept while windows give way.
#[derive(Drop)]
pub struct KeptLive {
    pub(crate) kept: KeptFlow,
}

impl Model for KeptLive {
    ghost use Rattle.liveness.specs.Parts.{Parts};

    ghost Value = { Parts };

    ghost use Rattle.liveness.specs.KeptLive.{parts_of, IsIdle};

    ghost view = { λ l. parts_of l.kept };

    ghost invariant = { λ l. IsIdle l.kept };
}

/// The window as it was, and as it is.
#[derive(Clone, Copy)]
struct Exchanged {
    old: Window,
    fresh: Window,
}

/// Puts the places in `first..end` into the set of those that are due.
fn add_places(due: &mut PlaceSet, first: u32, end: u32)
    requires { end ≤ length due.old }
    ensures many { length due.new ≡ length due.old }
    ensures these { (q : ℕ) → first ≤ q → q < end → marked due.new q ≡ true }
{
    for place in first..end {
        due.insert(place);
    }
}

/// Puts the ways of instructions at places, in order.
fn put_in(ways: &mut Vec<Option<Ways>>, places: &[u32], new: &[Instr])
    requires few { length ways.old.items < 2 ^ 32 }
    requires ascending { AreAscending 0 places.now }
    requires within { (k : ℕ) → k < length places.now → get_or places.now k 0 < length ways.old.items }
    ensures many { length ways.new.items ≡ length ways.old.items }
    ensures put { ArePut places.now new.now ways.new.items }
    ensures others { (q : ℕ) → one_of q places.now ≡ false → slice_get ways.new.items q ≡ slice_get ways.old.items q }
{
    put_ways(ways.as_mut_slice(), places, new);
}

/// Puts the new instructions at the places, and works out anew what is read for sure.
fn exchange(kept: &mut KeptFlow, places: &[u32], new: &[Instr], first: u32, end: u32) -> Exchanged
    requires idle { IsIdle kept.old }
    requires ascending { AreAscending first places.now }
    requires within { (k : ℕ) → k < length places.now → get_or places.now k 0 < end }
    requires some { first < end }
    requires end { end ≤ length kept.old.ways.items }
    ensures idle { IsIdle kept.new }
    ensures many { length kept.new.ways.items ≡ length kept.old.ways.items }
    ensures graph { kept.new.graph ≡ kept.old.graph }
    ensures walk { kept.new.walk ≡ kept.old.walk }
    ensures first { result.old.first ≡ first }
    ensures end { result.old.end ≡ end }
    ensures old_reads { (x : ℕ) → has result.old.reads.bits x ≡ reads_from kept.old.ways.items first (end - first) x }
    ensures old_writes { (x : ℕ) → has result.old.writes.bits x ≡ writes_from kept.old.ways.items first (end - first) x }
    ensures reads { (x : ℕ) → has result.fresh.reads.bits x ≡ reads_from kept.new.ways.items first (end - first) x }
    ensures writes { (x : ℕ) → has result.fresh.writes.bits x ≡ writes_from kept.new.ways.items first (end - first) x }
    ensures put { ArePut places.now new.now kept.new.ways.items }
    ensures others { (q : ℕ) → one_of q places.now ≡ false → slice_get kept.new.ways.items q ≡ slice_get kept.old.ways.items q }
    ensures ahead { IsWired kept.new.ways.items kept.old.graph.callers → IsAhead kept.old.ways.items kept.old.forward.sets.items → IsAhead kept.new.ways.items kept.new.forward.sets.items }
{
    let old = window_of(kept.ways.as_slice(), first, end);
    put_in(&mut kept.ways, places, new);
    let fresh = window_of(kept.ways.as_slice(), first, end);
    add_places(&mut kept.due, first, end);
    renew(
        kept.graph.is_point.as_slice(),
        kept.ways.as_slice(),
        &kept.graph.callers,
        &mut kept.forward,
        &mut kept.due,
    );
    Exchanged { old, fresh }
}

/// Pushes all touched places onto the stack.
fn wait_again(walk: &mut Walk)
    requires room { walk.old.stack.room ≡ walk.old.touched.room }
    ensures before { walk.new.before ≡ walk.old.before }
    ensures was { walk.new.was ≡ walk.old.was }
    ensures touched { walk.new.touched ≡ walk.old.touched }
    ensures room { walk.new.stack.room ≡ walk.old.stack.room }
    ensures waits { (q : ℕ) → one_of q walk.old.touched.places ≡ true → one_of q walk.new.stack.places ≡ true }
{
    for number in 0..walk.touched.len() {
        let place = walk.touched.at(number);
        walk.stack.push(place);
    }
}

/// Adds to `lost` the touched places that lost an item in the end. No place is touched then.
fn tell_lost(walk: &mut Walk, lost: &mut PlaceSet)
    requires room { walk.old.touched.room ≡ length lost.old }
    requires was { length walk.old.was.items ≡ length lost.old }
    requires before { length walk.old.before.sets.items ≡ length lost.old }
    ensures before { walk.new.before ≡ walk.old.before }
    ensures was { walk.new.was ≡ walk.old.was }
    ensures stack { walk.new.stack ≡ walk.old.stack }
    ensures room { walk.new.touched.room ≡ walk.old.touched.room }
    ensures none { walk.new.touched.places ≡ [] }
    ensures many { length lost.new ≡ length lost.old }
    ensures lost { (p : ℕ) → (marked lost.new p ≡ true) ↔ ((marked lost.old p ≡ true) ⊎ ((one_of p walk.old.touched.places ≡ true) × LosesAt (set_at walk.old.was.items p) (set_at walk.old.before.sets.items p))) }
{
    while let Some(place) = walk.touched.pop() {
        let at = place as usize;
        tell_if(
            lost,
            place,
            walk.was[at].minus(walk.before.sets[at]).bits != 0,
        );
    }
}

/// Puts a place into a set, if `tells` is true.
fn tell_if(places: &mut PlaceSet, place: u32, tells: bool)
    requires { place < length places.old }
    ensures many { length places.new ≡ length places.old }
    ensures told { (p : ℕ) → (marked places.new p ≡ true) ↔ ((marked places.old p ≡ true) ⊎ ((p ≡ place) × (tells ≡ true))) }
{
    if tells {
        places.insert(place);
    }
}

/// Clears what the window alone kept live.
fn shrink(kept: &mut KeptFlow, window: Exchanged)
    requires idle { IsIdle kept.old }
    requires some { window.old.first < window.old.end }
    requires end { window.old.end ≤ length kept.old.ways.items }
    ensures fit { IsFitKept kept.new }
    ensures stack { kept.new.walk.stack.places ≡ [] }
    ensures ways { kept.new.ways ≡ kept.old.ways }
    ensures graph { kept.new.graph ≡ kept.old.graph }
    ensures forward { kept.new.forward ≡ kept.old.forward }
    ensures due { kept.new.due ≡ kept.old.due }
    ensures start { (p : ℕ) → start_at kept.new.walk p ≡ set_at kept.old.walk.before.sets.items p }
    ensures touched { (p : ℕ) → window.old.first ≤ p → p < window.old.end → one_of p kept.new.walk.touched.places ≡ true }
    ensures shrunk { IsShrunkBy kept.old.ways.items kept.old.graph kept.old.forward.sets.items window.old window.fresh kept.old.walk kept.new.walk }
{
    let marks = kept.graph.is_point.as_slice();
    begin(
        marks,
        kept.forward.sets.as_slice(),
        window.old,
        window.fresh,
        &mut kept.walk,
    );
    clear(
        kept.ways.as_slice(),
        &kept.graph,
        &kept.forward,
        window.old,
        &mut kept.walk,
    );
}

/// Lets what is still read grow back, and adds to `lost` the places that lost an item in the end.
fn regrow(kept: &mut KeptFlow, lost: &mut PlaceSet)
    requires fit { IsFitKept kept.old }
    requires stack { kept.old.walk.stack.places ≡ [] }
    requires room { length lost.old ≡ length kept.old.ways.items }
    ensures idle { IsIdle kept.new }
    ensures ways { kept.new.ways ≡ kept.old.ways }
    ensures graph { kept.new.graph ≡ kept.old.graph }
    ensures forward { kept.new.forward ≡ kept.old.forward }
    ensures many { length lost.new ≡ length lost.old }
    ensures more { (p x : ℕ) → has (set_at kept.old.walk.before.sets.items p) x ≡ true → has (set_at kept.new.walk.before.sets.items p) x ≡ true }
    ensures live { (code : Code) → IsGraph code kept.old.ways.items kept.old.graph → IsGrowing code kept.old.walk.before.sets.items kept.old.walk.touched.places → IsGrowing code kept.new.walk.before.sets.items [] }
    ensures lost { (p : ℕ) → (marked lost.new p ≡ true) ↔ ((marked lost.old p ≡ true) ⊎ LosesAt (start_at kept.old.walk p) (set_at kept.new.walk.before.sets.items p)) }
{
    wait_again(&mut kept.walk);
    grow(
        kept.ways.as_slice(),
        &kept.graph,
        &mut kept.walk.before,
        &mut kept.walk.stack,
    );
    tell_lost(&mut kept.walk, lost);
}

/// Lets new instructions take the places of a window, as `KeptLive::replace` says.
fn replace_in(kept: &mut KeptFlow, places: &[u32], new: &[Instr], lost: &mut PlaceSet)
    requires idle { IsIdle kept.old }
    requires some { 0 < length places.now }
    requires ascending { AreAscending 0 places.now }
    requires within { (k : ℕ) → k < length places.now → get_or places.now k 0 < length kept.old.ways.items }
    requires room { length lost.old ≡ length kept.old.ways.items }
    ensures idle { IsIdle kept.new }
    ensures many { length kept.new.ways.items ≡ length kept.old.ways.items }
    ensures due { length lost.new ≡ length lost.old }
    ensures kept { (code code' : Code) (window : List AnInstr) → IsWindowExchange code code' places.now window new.now → IsKeptLive code (parts_of kept.old) → IsKeptLive code' (parts_of kept.new) }
    ensures lost { (p : ℕ) → (marked lost.new p ≡ true) ↔ ((marked lost.old p ≡ true) ⊎ LosesAt (set_at kept.old.walk.before.sets.items p) (set_at kept.new.walk.before.sets.items p)) }
{
    let first = places[0];
    let end = places[places.len() - 1] + 1;
    let window = exchange(kept, places, new, first, end);
    shrink(kept, window);
    regrow(kept, lost);
}

impl KeptLive {
    /// The items that are live before a place in the code as it is now.
    pub fn before(&self, place: u32) -> Items
        requires { place < length self.now.before }
        ensures value { result.bits ≡ set_at self.now.before place }
        ensures live { (code : Code) → IsKeptLive code self.now → (x : ℕ) → (has result.bits x ≡ true) ↔ Reads code x place }
    {
        self.kept.walk.before.sets[place as usize]
    }

    /// Lets new instructions take the first places of a window, whose places are kept ones in ascending order; the others are gone. `lost` gains the places
    /// before which an item was live that isn't any more. No memory is taken.
    ///
    /// Visited are the places at which an item is cleared or comes back, those from which ways lead there, and the window's.
    pub fn replace(&mut self, places: &[u32], new: &[Instr], lost: &mut PlaceSet)
        requires some { 0 < length places.now }
        requires ascending { AreAscending 0 places.now }
        requires within { (k : ℕ) → k < length places.now → get_or places.now k 0 < length self.old.before }
        requires room { length lost.old ≡ length self.old.before }
        ensures many { length self.new.before ≡ length self.old.before }
        ensures due { length lost.new ≡ length lost.old }
        ensures kept { (code code' : Code) (window : List AnInstr) → IsWindowExchange code code' places.now window new.now → IsKeptLive code self.old → IsKeptLive code' self.new }
        ensures lost { (p : ℕ) → (marked lost.new p ≡ true) ↔ ((marked lost.old p ≡ true) ⊎ LosesAt (set_at self.old.before p) (set_at self.new.before p)) }
    {
        replace_in(&mut self.kept, places, new, lost);
    }
}
