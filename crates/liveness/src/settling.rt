//! Visits of places until none would change anything: where the set before a place grows, its predecessors wait for another visit.
ghost use Rattle.std.specs.Prelude.{[], ◌∷◌, ◌≡◌, ℕ, ◌+◌, ◌-◌, ◌*◌, ◌^◌, ◌<◌, ◌≤◌, true, min, length, OnOk};
ghost use Rattle.thumb_instr.specs.Items.{one_of};
ghost use Rattle.thumb_model.specs.Listing.{code_of};
ghost use Rattle.code_flow.specs.Flow.{way_list};
ghost use Rattle.liveness.specs.Ways.{AreAllWays};
ghost use Rattle.kept_places.specs.Marks.{marked};
ghost use Rattle.liveness.specs.Passes.{AreClosed, AreSound};
ghost use Rattle.liveness.specs.Graph.{leads_to, some_leads, ways_at, JumpsTo, AreCallers, IsGraph};
ghost use Rattle.liveness.specs.Waiting.{left, AreWaiting, WaitMore};
ghost use Rattle.liveness.specs.Settling.{IsSettling, Advances};

use crate::graph::{Callers, Graph};
use crate::visiting::{Found, visit};
use crate::waiting::Waiting;
use code_flow::{Next, Way, Ways};
use listing_parser::Listing;
use std::alloc::{AllocError, Global};
use step_ledger::{Ledger, Steps};

/// Whether a way leads to a place.
fn leads_to(place: usize, way: Way) -> bool
    ensures { result ≡ leads_to place way.next }
{
    match way.next {
        Next::Place(there) => there as usize == place,
        _ => false,
    }
}

/// Whether one of the ways leads to a place.
pub fn some_leads(place: usize, ways: Option<Ways>) -> bool
    ensures { result ≡ some_leads place (way_list ways) }
{
    match ways {
        None => false,
        Some(ways) => leads_to(place, ways.first)
            || ways.second.is_some_and(|way| leads_to(place, way)),
    }
}

/// Lets the place right before `place` wait, if a way leads from it to `place`.
fn tell_before(ways: &[Option<Ways>], place: u32, waiting: &mut Waiting) -> Result<(), AllocError>
    requires waiting { AreWaiting waiting.old }
    requires as_many { length waiting.old.marks.items ≡ length ways.now }
    requires place { place < length ways.now }
    ensures more { OnOk result (WaitMore waiting.old waiting.new) }
    ensures told { OnOk result ((q : ℕ) → q + 1 ≡ place → some_leads place (ways_at ways.now q) ≡ true → marked waiting.new.marks.items q ≡ true) }
{
    if place == 0 {
        return Ok(());
    }
    let before = place - 1;
    if !some_leads(place as usize, ways[before as usize]) {
        return Ok(());
    }
    waiting.push(before)
}

/// Lets the places wait that jump to `place`. `_ways` are those of all places.
fn tell_callers(
    _ways: &[Option<Ways>],
    callers: &Callers,
    place: u32,
    waiting: &mut Waiting,
) -> Result<(), AllocError>
    requires callers { AreCallers _ways.now (length _ways.now) callers.now }
    requires place { place < length _ways.now }
    requires waiting { AreWaiting waiting.old }
    requires as_many { length waiting.old.marks.items ≡ length _ways.now }
    ensures more { OnOk result (WaitMore waiting.old waiting.new) }
    ensures told { OnOk result ((q : ℕ) → JumpsTo _ways.now place q → marked waiting.new.marks.items q ≡ true) }
{
    let mut rest = callers.last[place as usize];
    while rest > 0 {
        let jump = callers.jumps[rest as usize - 1];
        waiting.push(jump.place)?;
        rest = jump.earlier;
    }
    Ok(())
}

/// Lets the predecessors of `place` wait.
fn tell_leading(
    _listing: &Listing,
    ways: &[Option<Ways>],
    callers: &Callers,
    place: u32,
    waiting: &mut Waiting,
) -> Result<(), AllocError>
    requires ways { AreAllWays (code_of _listing.now) ways.now }
    requires callers { AreCallers ways.now (length ways.now) callers.now }
    requires place { place < length ways.now }
    requires waiting { AreWaiting waiting.old }
    requires as_many { length waiting.old.marks.items ≡ length ways.now }
    ensures more { OnOk result (WaitMore waiting.old waiting.new) }
    ensures told { OnOk result ((q : ℕ) → some_leads place (ways_at ways.now q) ≡ true → marked waiting.new.marks.items q ≡ true) }
{
    tell_before(ways, place, waiting)?;
    tell_callers(ways, callers, place, waiting)?;
    Ok(())
}

/// Lets the places wait from which a way leads to any code point.
fn tell_returns(returns: &[u32], waiting: &mut Waiting) -> Result<(), AllocError>
    requires within { (q : ℕ) → one_of q returns.now ≡ true → q < length waiting.old.marks.items }
    requires waiting { AreWaiting waiting.old }
    ensures more { OnOk result (WaitMore waiting.old waiting.new) }
    ensures told { OnOk result ((q : ℕ) → one_of q returns.now ≡ true → marked waiting.new.marks.items q ≡ true) }
{
    for place in returns {
        waiting.push(*place)?;
    }
    Ok(())
}

/// Visits a place that was just taken. If its set grows, or that of all code points, the places wait from which a way leads there.
fn advance<L: Ledger>(
    listing: &Listing,
    ways: &[Option<Ways>],
    graph: &Graph,
    place: u32,
    found: &mut Found,
    waiting: &mut Waiting,
    steps: &mut Steps<L>,
) -> Result<(), AllocError>
    requires place { place < length ways.now }
    requires graph { IsGraph (code_of listing.now) ways.now graph.now }
    requires settling { IsSettling (code_of listing.now) ways.now (place ∷ []) found.old waiting.old }
    ensures settling { OnOk result (IsSettling (code_of listing.now) ways.now [] found.new waiting.new) }
    ensures advances { OnOk result (Advances found.old waiting.old found.new waiting.new) }
    ensures more { OnOk result (left waiting.old ≤ left waiting.new) }
    ensures count { steps.new ≡ min (steps.old + 1) (2 ^ 64 - 1) }
{
    let points = found.points;
    let at = place as usize;
    let grew = visit(ways[at], graph.is_point[at], at, found, steps);
    if !grew {
        return Ok(());
    }
    tell_leading(listing, ways, &graph.callers, place, waiting)?;
    if found.points.bits == points.bits {
        return Ok(());
    }
    tell_returns(graph.returns.as_slice(), waiting)?;
    Ok(())
}

/// Visits all places, and each again where what its ways lead to has grown, from sets that have only what is read. There are never more places that wait
/// than places, and each set grows 19 times at most.
pub fn settle<L: Ledger>(
    alloc: Global,
    listing: &Listing,
    ways: &[Option<Ways>],
    graph: &Graph,
    found: &mut Found,
    steps: &mut Steps<L>,
) -> Result<(), AllocError>
    requires graph { IsGraph (code_of listing.now) ways.now graph.now }
    requires before_len { length found.old.before.items ≡ length ways.now }
    requires after_len { length found.old.after.items ≡ length ways.now }
    requires sound { AreSound (code_of listing.now) found.old.before.items found.old.points.bits }
    ensures before_len { OnOk result (length found.new.before.items ≡ length ways.now) }
    ensures after_len { OnOk result (length found.new.after.items ≡ length ways.now) }
    ensures sound { OnOk result (AreSound (code_of listing.now) found.new.before.items found.new.points.bits) }
    ensures closed { OnOk result (AreClosed ways.now found.new.before.items found.new.after.items found.new.points.bits) }
    ensures cost { steps.new ≤ steps.old + (19 * length ways.now + 1) * length ways.now }
    ensures visited { OnOk result (min (steps.old + length ways.now) (2 ^ 64 - 1) ≤ steps.new) }
{
    let mut waiting = Waiting::all(alloc, listing.place_count())?;
    while let Some(place) = waiting.pop() {
        advance(listing, ways, graph, place, found, &mut waiting, steps)?;
    }
    Ok(())
}
