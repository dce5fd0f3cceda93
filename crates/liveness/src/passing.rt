//! What the ways of a place read, and what they pass on to where they lead.
ghost use Rattle.std.specs.Prelude.{◌≡◌, ◌&&◌, not, ℕ};
ghost use Rattle.thumb_instr.specs.Items.{has};
ghost use Rattle.code_flow.specs.Flow.{way_list};
ghost use Rattle.liveness.specs.Graph.{leads_to};
ghost use Rattle.liveness.specs.Through.{uses_among};
ghost use Rattle.liveness.specs.Passing.{passes_points, passes_to, writes_among};

use crate::graph::is_return;
use code_flow::{Next, Way, Ways};
use thumb_instr::Items;

/// The items that at least one way reads.
pub(crate) fn uses_in(ways: Option<Ways>) -> Items
    ensures { (x : ℕ) → has result.bits x ≡ uses_among (way_list ways) x }
{
    match ways {
        None => Items::none(),
        Some(ways) => match ways.second {
            None => ways.first.uses,
            Some(second) => ways.first.uses.union(second.uses),
        },
    }
}

/// The items that at least one way writes.
pub(crate) fn writes_in(ways: Option<Ways>) -> Items
    ensures { (x : ℕ) → has result.bits x ≡ writes_among (way_list ways) x }
{
    match ways {
        None => Items::none(),
        Some(ways) => match ways.second {
            None => ways.first.writes,
            Some(second) => ways.first.writes.union(second.writes),
        },
    }
}

/// Those of the items that a way doesn't write, or none if the way doesn't count.
fn passed_along(counts: bool, way: Way, items: Items) -> Items
    ensures { (x : ℕ) → has result.bits x ≡ (counts && (has items.bits x && not (has way.writes.bits x))) }
{
    if counts {
        items.minus(way.writes)
    } else {
        Items::none()
    }
}

/// Whether a way leads to a place.
fn leads_to(place: u32, way: Way) -> bool
    ensures { result ≡ leads_to place way.next }
{
    match way.next {
        Next::Place(there) => there == place,
        _ => false,
    }
}

/// Those of the items that some way to a place doesn't write.
pub(crate) fn passed_to(place: u32, ways: Option<Ways>, items: Items) -> Items
    ensures { (x : ℕ) → has result.bits x ≡ (has items.bits x && passes_to place (way_list ways) x) }
{
    match ways {
        None => Items::none(),
        Some(ways) => {
            let first = passed_along(leads_to(place, ways.first), ways.first, items);
            match ways.second {
                None => first,
                Some(way) => first.union(passed_along(leads_to(place, way), way, items)),
            }
        }
    }
}

/// Those of the items that some way to any code point doesn't write.
pub(crate) fn passed_to_points(ways: Option<Ways>, items: Items) -> Items
    ensures { (x : ℕ) → has result.bits x ≡ (has items.bits x && passes_points (way_list ways) x) }
{
    match ways {
        None => Items::none(),
        Some(ways) => {
            let first = passed_along(is_return(ways.first), ways.first, items);
            match ways.second {
                None => first,
                Some(way) => first.union(passed_along(is_return(way), way, items)),
            }
        }
    }
}
