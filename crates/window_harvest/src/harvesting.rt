//! The walk over a listing that gathers windows. A pair is found again by the number of its sequence, so that no instructions are hashed.
ghost use Rattle.std.specs.Prelude.{◌≤◌, map, IfOk};
ghost use Rattle.thumb_model.specs.Listing.{code_of};
ghost use Rattle.liveness.specs.Live.{IsLive};
ghost use Rattle.window_harvest.specs.Harvest.{AreHarvest, pair_of};

use crate::adding::{Limits, add_place};
use crate::numberings::Numberings;
use listing_parser::{Listing, Memory};
use liveness::Live;
use seq_enum::Pool;
use std::alloc::Global;
use std::collections::HashSet;
use thumb_instr::{Mask, Seq};
use window_runs::rows::rows;

/// The distinct pairs of a canonical window and the mask of the items that are live after it, for every window of 1 to `left` instructions that names
/// at most `regs` registers and lies in the alphabet of the registers that it names and the pool: in order of first appearance by place, then by length.
/// `live` has the live items of this listing. Time is linear in the listing's length.
pub fn windows(
    alloc: Global,
    listing: &Listing,
    live: &Live,
    regs: u8,
    left: u8,
    pool: &Pool,
) -> Result<Vec<(Seq, Mask)>, Memory>
    requires live { IsLive (code_of listing.now) live.now }
    requires regs { regs ≤ 4 }
    requires left { left ≤ 5 }
    ensures { IfOk result (λ pairs. AreHarvest (record { regs = regs; left = left; pool = pool.now }) listing.now (map pair_of pairs.items)) }
{
    let numberings = Numberings::new(pool);
    let limits = Limits {
        regs,
        left,
        pool,
        numberings: &numberings,
    };
    let rows = rows(alloc, listing.lines())?;
    let mut seen = HashSet::new(alloc);
    let mut pairs = Vec::new(alloc);
    for place in 0..listing.place_count() {
        add_place(&mut seen, &mut pairs, limits, &rows, live, place)?;
    }
    Ok(pairs)
}
