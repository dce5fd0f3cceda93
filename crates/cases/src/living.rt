//! Cases of live items: `live PLACE TEXT` and `ledger`.
use crate::case::Case;
use listing_parser::Listing;
use liveness::live;
use std::marker::Brand;
use step_ledger::{Counted, Free, Steps};
use thumb_instr::Items;

/// The names of the items, in the order of their numbers.
const ITEMS: [&str; 19] = [
    "r0", "r1", "r2", "r3", "r4", "r5", "r6", "r7", "r8", "r9", "r10", "r11", "r12", "sp", "lr",
    "n", "z", "c", "v",
];

/// Adds the items of a set; `none` if it is empty.
fn add_items(items: Items, case: &mut Case<'_>) {
    if items.bits == 0 {
        case.add("none");
    }
    let mut left = items.bits;
    for item in ITEMS.iter() {
        if left % 2 == 1 {
            case.add(*item);
        }
        left /= 2;
    }
}

/// The items that are live after a place of a listing.
pub(crate) fn after(listing: &Listing, case: &mut Case<'_>) -> Option<()> {
    let place = case.number() as usize;
    let sets = live(case.alloc, listing, &mut Steps::new(Counted::new())).ok()?;
    add_items(*sets.after_sets().get(place)?, case);
    Some(())
}

/// The size in bytes of a ledger whose count only contracts see: it has to be 0.
pub(crate) fn ledger(case: &mut Case<'_>) -> Option<()> {
    case.add(size_of::<Free<Brand>>());
    Some(())
}
