//! Live items from scratch: every place waits once, the last first, and again only where a set that it reads has grown.
ghost use Rattle.std.specs.Prelude.{◌≡◌, ◌+◌, ◌-◌, ◌*◌, ◌^◌, ◌≤◌, min, length, IfOk, OnOk};
ghost use Rattle.thumb_model.specs.Listing.{code_of, places_of};
ghost use Rattle.liveness.specs.Ways.{AreAllWays};
ghost use Rattle.liveness.specs.Live.{IsLive};

use crate::graph::graph_of;
use crate::sets::Live;
use crate::settling::settle;
use crate::visiting::Found;
use code_flow::{Ways, ways};
use listing_parser::{Listing, Memory};
use std::alloc::{AllocError, Global};
use step_ledger::{Ledger, Steps};
use thumb_instr::Items;

/// The items that are live before and after each place of a listing.
///
/// A step is a visit of a place: a look at its ways together with its set. Each place is visited once at least.
pub fn live<L: Ledger>(
    alloc: Global,
    listing: &Listing,
    steps: &mut Steps<L>,
) -> Result<Live, Memory>
    ensures live { IfOk result (λ live. IsLive (code_of listing.now) live) }
    ensures cost { steps.new ≤ steps.old + (19 * length (places_of listing.now) + 1) * length (places_of listing.now) }
    ensures visited { OnOk result (min (steps.old + length (places_of listing.now)) (2 ^ 64 - 1) ≤ steps.new) }
{
    let ways = all_ways(alloc, listing)?;
    live_by(alloc, listing, &ways, steps)
}

/// The items that are live before and after each place, whose ways these are.
fn live_by<L: Ledger>(
    alloc: Global,
    listing: &Listing,
    ways: &[Option<Ways>],
    steps: &mut Steps<L>,
) -> Result<Live, Memory>
    requires len { length ways.now ≡ length (places_of listing.now) }
    requires ways { AreAllWays (code_of listing.now) ways.now }
    ensures live { IfOk result (λ live. IsLive (code_of listing.now) live) }
    ensures cost { steps.new ≤ steps.old + (19 * length (places_of listing.now) + 1) * length (places_of listing.now) }
    ensures visited { OnOk result (min (steps.old + length (places_of listing.now)) (2 ^ 64 - 1) ≤ steps.new) }
{
    let graph = graph_of(alloc, listing, ways)?;
    let count = listing.place_count() as usize;
    let mut found = Found {
        before: vec![in alloc; Items::none(); count]?,
        after: vec![in alloc; Items::none(); count]?,
        points: Items::none(),
    };
    settle(alloc, listing, ways, &graph, &mut found, steps)?;
    Ok(Live {
        before: found.before,
        after: found.after,
    })
}

/// The ways of each place.
pub fn all_ways(alloc: Global, listing: &Listing) -> Result<Vec<Option<Ways>>, AllocError>
    ensures len { IfOk result (λ all. length all.items ≡ length (places_of listing.now)) }
    ensures ways { IfOk result (λ all. AreAllWays (code_of listing.now) all.items) }
{
    let mut all = Vec::with_capacity(alloc, listing.place_count() as usize)?;
    for place in 0..listing.place_count() {
        all.push(ways(listing, place))?;
    }
    Ok(all)
}
