//! The flow graph backwards: the predecessors of each place, and the places from which a way leads to any code point.
ghost use Rattle.std.specs.Prelude.{◌≡◌, ◌<◌, ◌+◌, ◌-◌, ◌^◌, Some, length, true, IfOk, OnOk};
ghost use Rattle.thumb_model.specs.Listing.{code_of, places_of};
ghost use Rattle.code_flow.specs.Flow.{way_list};
ghost use Rattle.liveness.specs.Ways.{AreAllWays};
ghost use Rattle.liveness.specs.Graph.{is_return, jump_from, some_return, ways_at, AreCallers, AreReturns, IsGraph};

use code_flow::{Next, Way, Ways, all_points};
use listing_parser::Listing;
use std::alloc::{AllocError, Global};

/// A place from which a branch or call leads to another that it names. `earlier` is the number of the previous jump to the same place, counted from 1,
/// or 0 where it is the first.
#[derive(Clone, Copy, Debug, PartialEq, Eq)]
pub struct Jump {
    pub place: u32,
    pub earlier: u32,
}

/// All jumps, and for each place the number of the last one that leads there, counted from 1, or 0 where none does.
#[derive(Drop)]
pub struct Callers {
    pub last: Vec<u32>,
    pub jumps: Vec<Jump>,
}

/// Where the ways of a listing lead: its code points, the jumps to each place, and the places from which a way leads to any code point.
#[derive(Drop)]
pub struct Graph {
    pub is_point: Vec<bool>,
    pub callers: Callers,
    pub returns: Vec<u32>,
}

/// The place that a place's first way leads to, where that isn't the next one. A second way names no place but the next one.
fn jump_from(ways: Option<Ways>, next: u32) -> Option<u32>
    ensures { result ≡ jump_from next (way_list ways) }
{
    match ways?.first.next {
        Next::Place(target) => if target == next { None } else { Some(target) },
        _ => None,
    }
}

/// Whether a way leads to any code point.
pub(crate) fn is_return(way: Way) -> bool
    ensures { result ≡ is_return way.next }
{
    match way.next {
        Next::Points => true,
        _ => false,
    }
}

/// Whether one of the ways leads to any code point.
fn some_return(ways: Option<Ways>) -> bool
    ensures { result ≡ some_return (way_list ways) }
{
    match ways {
        None => false,
        Some(ways) => is_return(ways.first) || ways.second.is_some_and(|way| is_return(way)),
    }
}

/// Notes the jump from a place, where one leads from there. `_ways` are those of all places.
fn note_jump(
    _ways: &[Option<Ways>],
    callers: &mut Callers,
    place: u32,
    target: Option<u32>,
) -> Result<(), AllocError>
    requires place { place < 2 ^ 32 - 1 }
    requires target { target ≡ jump_from (place + 1) (ways_at _ways.now place) }
    requires callers { AreCallers _ways.now place callers.old }
    ensures callers { OnOk result (AreCallers _ways.now (place + 1) callers.new) }
{
    let Some(target) = target else {
        return Ok(());
    };
    if target as usize >= callers.last.len() {
        return Ok(());
    }
    let earlier = callers.last[target as usize];
    callers.jumps.push(Jump { place, earlier })?;
    callers.last[target as usize] = callers.jumps.len() as u32;
    Ok(())
}

/// Notes a place from which a way leads to any code point, where one does. `_ways` are those of all places.
fn note_return(
    _ways: &[Option<Ways>],
    returns: &mut Vec<u32>,
    place: u32,
    is_one: bool,
) -> Result<(), AllocError>
    requires is_one { is_one ≡ some_return (ways_at _ways.now place) }
    requires returns { AreReturns _ways.now place returns.old.items }
    ensures returns { OnOk result (AreReturns _ways.now (place + 1) returns.new.items) }
{
    if is_one {
        returns.push(place)?;
    }
    Ok(())
}

/// Where the ways of a listing lead. Each place is looked at once.
pub fn graph_of(
    alloc: Global,
    listing: &Listing,
    ways: &[Option<Ways>],
) -> Result<Graph, AllocError>
    requires len { length ways.now ≡ length (places_of listing.now) }
    requires ways { AreAllWays (code_of listing.now) ways.now }
    ensures { IfOk result (IsGraph (code_of listing.now) ways.now) }
{
    let count = listing.place_count();
    let mut callers = Callers {
        last: vec![in alloc; 0; count as usize]?,
        jumps: Vec::new(alloc),
    };
    let mut returns = Vec::new(alloc);
    for place in 0..count {
        let here = ways[place as usize];
        note_jump(ways, &mut callers, place, jump_from(here, place + 1))?;
        note_return(ways, &mut returns, place, some_return(here))?;
    }
    Ok(Graph {
        is_point: all_points(alloc, listing)?,
        callers,
        returns,
    })
}
