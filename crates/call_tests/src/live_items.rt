//! Tests `Live::change`, whose contract requires that its arguments say how the lines changed: its result is compared with the sets from scratch.
ghost use Rattle.std.specs.Prelude.{◌≡◌, true};
ghost use Rattle.thumb_instr.specs.Window.{is_in_window};
ghost use Rattle.call_tests.specs.Windows.{GaveWay};

use crate::windows::{uxtb, with_one};
use listing_parser::{Listing, parse};
use liveness::{Live, live};
use std::alloc::Global;
use std::test::Fail;
use step_ledger::{Counted, Steps};
use thumb_instr::Instr;

/// Whether all sets, before and after each place, are the same.
fn are_one(sets: &Live, other: &Live) -> bool {
    sets.before_sets() == other.before_sets() && sets.after_sets() == other.after_sets()
}

/// How the sets of a listing were updated.
#[derive(Clone, Copy, Debug, PartialEq, Eq)]
enum Change {
    /// There is no window of two instructions at the place.
    NoWindow,
    /// They are right, and no place was visited.
    Kept,
    /// They are right, and places were visited.
    FoundAnew,
    /// They are wrong.
    Wrong,
}

/// How the sets of a listing were updated, with so many visits.
fn judged(alloc: Global, listing: &Listing, sets: &Live, visits: u64) -> Result<Change, Fail> {
    let found = live(alloc, listing, &mut Steps::new(Counted::new()))?;
    Ok(match (are_one(sets, &found), visits) {
        (false, _) => Change::Wrong,
        (true, 0) => Change::Kept,
        (true, _) => Change::FoundAnew,
    })
}

/// How the sets of a listing are updated for the one that came of it when an instruction replaced two, from this place on.
fn updated(
    alloc: Global,
    listing: &Listing,
    changed: &Listing,
    place: u32,
    _instr: Instr,
) -> Result<Change, Fail>
    requires in_window { is_in_window _instr ≡ true }
    requires gave_way { GaveWay listing.now place _instr changed.now }
{
    let mut steps = Steps::new(Counted::new());
    let mut sets = live(alloc, listing, &mut steps)?;
    let mut visits = Steps::new(Counted::new());
    sets.change(alloc, changed, place, 2, 1, &mut visits)?;
    judged(alloc, changed, &sets, visits.ledger().count())
}

/// How the sets of the listing are updated when `uxtb r0, r0` replaces two instructions, from this place on.
fn outcome(alloc: Global, listing: &Listing, place: u32) -> Result<Change, Fail> {
    let instr = uxtb();
    match with_one(alloc, listing, place, instr)? {
        None => Ok(Change::NoWindow),
        Some(changed) => updated(alloc, listing, &changed, place, instr),
    }
}

/// The same of the listing that a text is.
fn outcome_of(alloc: Global, text: &str, place: u32) -> Result<Change, Fail> {
    let listing = parse(alloc, text.as_bytes())?;
    outcome(alloc, &listing, place)
}

#[test]
fn sets_are_brought_up_to_date(rt: HostRuntime) -> Result<(), Fail> {
    for (text, place, want) in [
        // r0 is read before and after, and no flag is live
        (
            "f: lsls r0, r0, #24\n lsrs r0, r0, #24\n bx lr\n",
            0,
            Change::Kept,
        ),
        // Z is live before the one new instruction, and wasn't before the two old ones, which write it
        (
            "f: nop\n lsls r0, r0, #24\n lsrs r0, r0, #24\n beq f\n bx lr\n",
            1,
            Change::FoundAnew,
        ),
        // r1 was live only because the first of the two old ones reads it
        (
            " nop\n nop\nf: lsls r0, r1, #24\n lsrs r0, r0, #24\n movs r1, #0\n bx lr\n",
            2,
            Change::FoundAnew,
        ),
        (
            " lsls r0, r0, #24\nf: lsrs r0, r0, #24\n bx lr\n",
            0,
            Change::NoWindow,
        ),
    ] {
        let found = outcome_of(rt.alloc(), text, place)?;
        assert_eq!(rt; found, want, "{text}{place}");
    }
    Ok(())
}
