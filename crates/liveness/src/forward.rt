//! The items that are read for sure: along ways that all lead to greater places. No loop can keep such an item alive by itself, so after a change the sets are
//! worked out anew, the greatest place first, with nothing cleared before.
ghost use Rattle.std.specs.Prelude.{[], ◌∷◌, ◌≡◌, ◌≢◌, ◌<◌, ◌≤◌, ◌+◌, ◌^◌, ◌⊎◌, true, false, ℕ, Bool, List, length, IfOk};
ghost use Rattle.thumb_instr.specs.Items.{has};
ghost use Rattle.kept_places.specs.Marks.{marked};
ghost use Rattle.code_flow.specs.Flow.{way_list};
ghost use Rattle.liveness.specs.Graph.{JumpsTo, some_leads, ways_at, AreCallers};
ghost use Rattle.liveness.specs.Ahead.{ahead, gained_ahead, IsAhead, IsAheadBut};
ghost use Rattle.liveness.specs.Counted.{AreCounted};
ghost use Rattle.liveness.specs.Within.{AreWithin, IsWired};

use crate::counted::{PointSets, no_sets, put};
use crate::graph::Callers;
use crate::settling::some_leads;
use code_flow::{Next, Way, Ways};
use kept_places::PlaceSet;
use std::alloc::{AllocError, Global};
use thumb_instr::Items;

/// The set where a way leads, if that is ahead of its place.
fn set_ahead(place: u32, next: Next, sets: &[Items]) -> Items
    ensures { (x : ℕ) → has result.bits x ≡ has (ahead place next sets.now) x }
{
    match next {
        Next::Place(there) => {
            if there <= place {
                return Items::none();
            }
            match sets.get(there as usize) {
                Some(set) => *set,
                None => Items::none(),
            }
        }
        _ => Items::none(),
    }
}

/// What is read along one way for sure.
fn read_along(place: u32, way: Way, sets: &[Items]) -> Items
    ensures { (x : ℕ) → has result.bits x ≡ gained_ahead place (way ∷ []) sets.now x }
{
    way.uses
        .union(set_ahead(place, way.next, sets).minus(way.writes))
}

/// What is read from a place for sure, given what is read for sure from the places ahead.
fn read_ahead(place: u32, ways: Option<Ways>, sets: &[Items]) -> Items
    ensures { (x : ℕ) → has result.bits x ≡ gained_ahead place (way_list ways) sets.now x }
{
    match ways {
        None => Items::none(),
        Some(ways) => {
            let first = read_along(place, ways.first, sets);
            match ways.second {
                None => first,
                Some(way) => first.union(read_along(place, way, sets)),
            }
        }
    }
}

/// What is read for sure from each place: one pass from the last to the first.
pub(crate) fn all_forward(
    alloc: Global,
    marks: &[bool],
    ways: &[Option<Ways>],
) -> Result<PointSets, AllocError>
    requires marks { length ways.now ≤ length marks.now }
    requires few { length ways.now < 2 ^ 32 }
    ensures counted { IfOk result (λ f. AreCounted marks.now f) }
    ensures many { IfOk result (λ f. length f.sets.items ≡ length ways.now) }
    ensures ahead { IfOk result (λ f. IsAhead ways.now f.sets.items) }
{
    let mut forward = no_sets(alloc, marks, ways.len())?;
    let mut at = ways.len();
    while at > 0 {
        at -= 1;
        let set = read_ahead(at as u32, ways[at], forward.sets.as_slice());
        put(marks, &mut forward, at, set);
    }
    Ok(forward)
}

/// Makes the place right before `place` due, if a way leads from it to `place`.
fn due_before(ways: &[Option<Ways>], place: u32, due: &mut PlaceSet)
    requires place { place < length ways.now }
    requires many { length due.old ≡ length ways.now }
    ensures many { length due.new ≡ length due.old }
    ensures kept { (q : ℕ) → marked due.old q ≡ true → marked due.new q ≡ true }
    ensures below { (q : ℕ) → marked due.new q ≡ true → (marked due.old q ≡ true) ⊎ (q < place) }
    ensures told { (q : ℕ) → q + 1 ≡ place → some_leads place (ways_at ways.now q) ≡ true → marked due.new q ≡ true }
{
    if place == 0 {
        return;
    }
    let before = place - 1;
    if !some_leads(place as usize, ways[before as usize]) {
        return;
    }
    due.insert(before);
}

/// Makes `other` due, if it comes before `place`.
fn due_if_before(place: u32, other: u32, due: &mut PlaceSet)
    requires { other < length due.old }
    ensures many { length due.new ≡ length due.old }
    ensures kept { (q : ℕ) → marked due.old q ≡ true → marked due.new q ≡ true }
    ensures below { (q : ℕ) → marked due.new q ≡ true → (marked due.old q ≡ true) ⊎ (q < place) }
    ensures told { other < place → marked due.new other ≡ true }
{
    if other < place {
        due.insert(other);
    }
}

/// Makes the places before `place` due that jump to it. `_ways` are those of all places.
fn due_callers(_ways: &[Option<Ways>], callers: &Callers, place: u32, due: &mut PlaceSet)
    requires callers { AreWithin (length _ways.now) callers.now }
    requires place { place < length _ways.now }
    requires many { length due.old ≡ length _ways.now }
    ensures many { length due.new ≡ length due.old }
    ensures kept { (q : ℕ) → marked due.old q ≡ true → marked due.new q ≡ true }
    ensures below { (q : ℕ) → marked due.new q ≡ true → (marked due.old q ≡ true) ⊎ (q < place) }
    ensures told { AreCallers _ways.now (length _ways.now) callers.now → (q : ℕ) → q < place → JumpsTo _ways.now place q → marked due.new q ≡ true }
{
    let mut rest = callers.last[place as usize];
    while rest > 0 {
        let jump = callers.jumps[rest as usize - 1];
        due_if_before(place, jump.place, due);
        rest = jump.earlier;
    }
}

/// Works out anew what is read for sure from a place that was just taken. If that changes, the earlier places become due from which a way leads there.
fn renew_at(
    marks: &[bool],
    ways: &[Option<Ways>],
    callers: &Callers,
    place: u32,
    forward: &mut PointSets,
    due: &mut PlaceSet,
)
    requires marks { length ways.now ≤ length marks.now }
    requires few { length ways.now < 2 ^ 32 }
    requires callers { AreWithin (length ways.now) callers.now }
    requires place { place < length ways.now }
    requires counted { AreCounted marks.now forward.old }
    requires many { length forward.old.sets.items ≡ length ways.now }
    requires due { length due.old ≡ length ways.now }
    ensures counted { AreCounted marks.now forward.new }
    ensures many { length forward.new.sets.items ≡ length ways.now }
    ensures due { length due.new ≡ length due.old }
    ensures below { (q : ℕ) → marked due.new q ≡ true → (marked due.old q ≡ true) ⊎ (q < place) }
    ensures ahead { IsWired ways.now callers.now → (old : List Bool) → ((q : ℕ) → q ≢ place → marked old q ≡ true → marked due.old q ≡ true) → IsAheadBut ways.now forward.old.sets.items old → IsAheadBut ways.now forward.new.sets.items due.new }
{
    let set = read_ahead(place, ways[place as usize], forward.sets.as_slice());
    if set.bits == forward.sets[place as usize].bits {
        return;
    }
    put(marks, forward, place as usize, set);
    due_before(ways, place, due);
    due_callers(ways, callers, place, due);
}

/// Works out anew what is read for sure from the places that are due, the greatest first, and from others as far as something changes: each place at most
/// once.
pub(crate) fn renew(
    marks: &[bool],
    ways: &[Option<Ways>],
    callers: &Callers,
    forward: &mut PointSets,
    due: &mut PlaceSet,
)
    requires marks { length ways.now ≤ length marks.now }
    requires few { length ways.now < 2 ^ 32 }
    requires callers { AreWithin (length ways.now) callers.now }
    requires counted { AreCounted marks.now forward.old }
    requires many { length forward.old.sets.items ≡ length ways.now }
    requires due { length due.old ≡ length ways.now }
    ensures counted { AreCounted marks.now forward.new }
    ensures many { length forward.new.sets.items ≡ length ways.now }
    ensures due { length due.new ≡ length due.old }
    ensures none { (q : ℕ) → marked due.new q ≡ false }
    ensures ahead { IsWired ways.now callers.now → IsAheadBut ways.now forward.old.sets.items due.old → IsAhead ways.now forward.new.sets.items }
{
    // For the prover alone: each place that is due lies below the bound, which falls, so the loop ends.
    let mut _bound = ways.len();
    while let Some(place) = due.take_greatest() {
        renew_at(marks, ways, callers, place, forward, due);
        _bound = place as usize;
    }
}
