//! What `KeptLive` begins with: the live items of a listing from scratch, and what is read from each place for sure.
ghost use Rattle.std.specs.Prelude.{[], ◌≡◌, ◌≤◌, ◌<◌, ◌+◌, ◌*◌, ◌^◌, ◌-◌, ◌↔◌, true, ℕ, length, min, IfOk, OnOk};
ghost use Rattle.thumb_instr.specs.Items.{has};
ghost use Rattle.thumb_model.specs.Listing.{code_of, places_of};
ghost use Rattle.thumb_model.specs.Flow.{Reads};
ghost use Rattle.liveness.specs.Graph.{IsGraph};
ghost use Rattle.liveness.specs.Live.{set_at};
ghost use Rattle.liveness.specs.KeptLive.{IsKeptLive};
ghost use Rattle.liveness.specs.Walk.{IsFitWalk};

use crate::counted::{no_sets, put};
use crate::finding::all_ways;
use crate::forward::all_forward;
use crate::graph::{Graph, graph_of};
use crate::kept_live::{KeptFlow, KeptLive};
use crate::settling::settle;
use crate::stack::PlaceStack;
use crate::visiting::Found;
use crate::walk::Walk;
use code_flow::Ways;
use kept_places::PlaceSet;
use listing_parser::Listing;
use std::alloc::{AllocError, Global};
use step_ledger::{Ledger, Steps};
use thumb_instr::Items;

/// The live items before each place of a listing, from scratch.
fn live_sets<L: Ledger>(
    alloc: Global,
    listing: &Listing,
    ways: &[Option<Ways>],
    graph: &Graph,
    steps: &mut Steps<L>,
) -> Result<Vec<Items>, AllocError>
    requires graph { IsGraph (code_of listing.now) ways.now graph.now }
    ensures many { IfOk result (λ s. length s.items ≡ length ways.now) }
    ensures live { IfOk result (λ s. (p x : ℕ) → (has (set_at s.items p) x ≡ true) ↔ Reads (code_of listing.now) x p) }
    ensures cost { steps.new ≤ steps.old + (19 * length (places_of listing.now) + 1) * length (places_of listing.now) }
    ensures visited { OnOk result (min (steps.old + length (places_of listing.now)) (2 ^ 64 - 1) ≤ steps.new) }
{
    let count = ways.len();
    let mut found = Found {
        before: vec![in alloc; Items::none(); count]?,
        after: vec![in alloc; Items::none(); count]?,
        points: Items::none(),
    };
    settle(alloc, listing, ways, graph, &mut found, steps)?;
    Ok(found.before)
}

/// A walk with these sets, in which no place is touched. `marks` says which places are code points.
fn walk_of(alloc: Global, marks: &[bool], sets: &[Items]) -> Result<Walk, AllocError>
    requires marks { length sets.now ≤ length marks.now }
    requires few { length sets.now < 2 ^ 32 }
    ensures fit { IfOk result (λ k. IsFitWalk marks.now (length sets.now) k) }
    ensures same { IfOk result (λ k. (p : ℕ) → set_at k.before.sets.items p ≡ set_at sets.now p) }
    ensures stack { IfOk result (λ k. k.stack.places ≡ []) }
    ensures touched { IfOk result (λ k. k.touched.places ≡ []) }
{
    let count = sets.len();
    let mut before = no_sets(alloc, marks, count)?;
    for place in 0..count {
        put(marks, &mut before, place, sets[place]);
    }
    Ok(Walk {
        before,
        was: vec![in alloc; Items::none(); count]?,
        stack: PlaceStack::new(alloc, count)?,
        touched: PlaceStack::new(alloc, count)?,
    })
}

impl KeptLive {
    /// The live items of a listing. A step is a visit of a place, as `live` counts it.
    pub fn new<L: Ledger>(
        alloc: Global,
        listing: &Listing,
        steps: &mut Steps<L>,
    ) -> Result<KeptLive, AllocError>
        ensures kept { IfOk result (λ k. IsKeptLive (code_of listing.now) k) }
        ensures cost { steps.new ≤ steps.old + (19 * length (places_of listing.now) + 1) * length (places_of listing.now) }
        ensures visited { OnOk result (min (steps.old + length (places_of listing.now)) (2 ^ 64 - 1) ≤ steps.new) }
    {
        let ways = all_ways(alloc, listing)?;
        let graph = graph_of(alloc, listing, ways.as_slice())?;
        let due = PlaceSet::new(alloc, listing.place_count())?;
        let sets = live_sets(alloc, listing, ways.as_slice(), &graph, steps)?;
        let forward = all_forward(alloc, graph.is_point.as_slice(), ways.as_slice())?;
        let walk = walk_of(alloc, graph.is_point.as_slice(), sets.as_slice())?;
        Ok(KeptLive {
            kept: KeptFlow {
                ways,
                graph,
                forward,
                due,
                walk,
            },
        })
    }
}
