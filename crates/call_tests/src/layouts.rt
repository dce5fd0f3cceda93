//! Tests `Layout::change`: its result is compared with a layout from scratch, where places and labels are looked up, which must be the listing's.
ghost use Rattle.std.specs.Prelude.{◌≡◌, length};
ghost use Rattle.thumb_model.specs.Listing.{places_of};

use crate::windows::{uxtb, with_one};
use label_layout::{Layout, layout};
use listing_parser::{Listing, ListingLine, parse};
use std::alloc::Global;
use std::test::Fail;

/// Whether two layouts have the same addresses for a line's labels.
fn are_one_at(line: &ListingLine, laid: &Layout, other: &Layout) -> bool {
    for name in &line.names {
        if laid.find_label(name) != other.find_label(name) {
            return false;
        }
    }
    true
}

/// Whether two layouts have the same addresses for a listing's labels.
fn are_one_at_labels(listing: &Listing, laid: &Layout, other: &Layout) -> bool {
    for line in listing.lines() {
        if !are_one_at(line, laid, other) {
            return false;
        }
    }
    true
}

/// Whether two layouts have the same addresses for a listing's places.
fn are_one_at_places(listing: &Listing, laid: &Layout, other: &Layout) -> bool
    requires laid { length laid.now.places ≡ length (places_of listing.now) }
    requires other { length other.now.places ≡ length (places_of listing.now) }
{
    for place in 0..listing.place_count() {
        if laid.address(place) != other.address(place) {
            return false;
        }
    }
    true
}

/// Whether two layouts of a listing are the same.
fn are_one(listing: &Listing, laid: &Layout, other: &Layout) -> bool
    requires laid { length laid.now.places ≡ length (places_of listing.now) }
    requires other { length other.now.places ≡ length (places_of listing.now) }
{
    laid.base() == other.base()
        && laid.end() == other.end()
        && are_one_at_places(listing, laid, other)
        && are_one_at_labels(listing, laid, other)
}

/// Where the listing of a layout ends, and whether the layout is that of `layout`.
fn compared(alloc: Global, listing: &Listing, laid: &Layout) -> Result<Option<(u32, bool)>, Fail>
    requires { length laid.now.places ≡ length (places_of listing.now) }
{
    let anew = layout(alloc, listing, 4096)?;
    Ok(Some((laid.end(), are_one(listing, laid, &anew))))
}

/// Updates the layout of a listing for the one that came of it, and compares it.
fn updated(
    alloc: Global,
    listing: &Listing,
    changed: &Listing,
    place: u32,
) -> Result<Option<(u32, bool)>, Fail> {
    let mut laid = layout(alloc, listing, 4096)?;
    laid.change(alloc, changed, place, 2, 1)?;
    compared(alloc, changed, &laid)
}

/// Replaces two instructions, from this place on, with `uxtb r0, r0` and updates the layout: where the listing then ends, and whether the layout is that of
/// `layout`. None if there is no window of two instructions at the place.
fn outcome(alloc: Global, listing: &Listing, place: u32) -> Result<Option<(u32, bool)>, Fail> {
    match with_one(alloc, listing, place, uxtb())? {
        None => Ok(None),
        Some(changed) => updated(alloc, listing, &changed, place),
    }
}

/// The same of the listing that a text is.
fn outcome_of(alloc: Global, text: &str, place: u32) -> Result<Option<(u32, bool)>, Fail> {
    let listing = parse(alloc, text.as_bytes())?;
    outcome(alloc, &listing, place)
}

#[test]
fn layouts_are_brought_up_to_date(rt: HostRuntime) -> Result<(), Fail> {
    for (text, place, want) in [
        // the label after the window moves forward by two bytes
        (
            "f: lsls r0, r0, #24\n lsrs r0, r0, #24\n g: b g\n",
            0,
            Some((4100, true)),
        ),
        // the data words stay where they are, after two bytes of padding
        (
            "ldr r1, w\nf: lsls r0, r0, #24\n lsrs r0, r0, #24\n bx lr\n .align 2\nw: .word 1, 2\nend:\n",
            1,
            Some((4112, true)),
        ),
        (" lsls r0, r0, #24\nf: lsrs r0, r0, #24\n", 0, None),
    ] {
        let found = outcome_of(rt.alloc(), text, place)?;
        assert_eq!(rt; found, want, "{text}{place}");
    }
    Ok(())
}
