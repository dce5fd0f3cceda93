//! Going over kept places in order, and what stands right after them.
ghost use Rattle.std.specs.Prelude.{◌≡◌, ◌+◌, ◌<◌, ◌≤◌, ◌^◌, drop, length, slice_get};
ghost use Rattle.kept_places.specs.Marks.{rank};
ghost use Rattle.thumb_model.specs.Listing.{is_op_place, places_of};
ghost use Rattle.edited_listing.specs.Changes.{marks_of, rest_items};
ghost use Rattle.edited_listing.specs.Edited.{IsEdited, lines_now};
ghost use Rattle.edited_listing.specs.Places.{item_of, item_place};

use crate::standing::Standing;
use kept_places::KeptPlaces;
use listing_parser::Listing;

/// One past the next kept place from `from` on, or the end.
pub(crate) fn pass_one(stands: &[Standing], kept: &mut KeptPlaces, from: u32) -> u32
    requires marks { kept.old ≡ marks_of stands.now }
    requires within { from ≤ length stands.now }
    requires few { length stands.now < 2 ^ 32 }
    ensures rest { rest_items result stands.now ≡ drop 1 (rest_items from stands.now) }
    ensures within { result ≤ length stands.now }
    ensures same { kept.new ≡ kept.old }
{
    let place = kept.node(from);
    if (place as usize) < stands.len() {
        place + 1
    } else {
        place
    }
}

/// One past the first `count` kept places from `from` on, or the end.
pub(crate) fn pass(stands: &[Standing], kept: &mut KeptPlaces, from: u32, count: usize) -> u32
    requires marks { kept.old ≡ marks_of stands.now }
    requires within { from ≤ length stands.now }
    requires few { length stands.now < 2 ^ 32 }
    ensures rest { rest_items result stands.now ≡ drop count (rest_items from stands.now) }
    ensures within { result ≤ length stands.now }
    ensures same { kept.new ≡ kept.old }
{
    let mut at = from;
    let mut left = count;
    while left > 0 {
        at = pass_one(stands, kept, at);
        left -= 1;
    }
    at
}

/// Whether what stands at a kept place is an instruction.
fn is_op_at(listing: &Listing, standing: &Standing, place: u32) -> bool
    ensures { result ≡ is_op_place (item_place (slice_get (places_of listing.now)) (item_of place standing.now)) }
{
    match standing {
        Standing::New { .. } => true,
        Standing::Given | Standing::Gone => listing.is_op(place),
    }
}

/// Whether an instruction stands right after the first `count` kept places from `from` on.
pub(crate) fn is_op_behind(
    listing: &Listing,
    stands: &[Standing],
    kept: &mut KeptPlaces,
    from: u32,
    count: usize,
) -> bool
    requires edited { IsEdited (record { given = listing.now; stands = stands.now }) }
    requires marks { kept.old ≡ marks_of stands.now }
    requires within { from ≤ length stands.now }
    requires few { length stands.now < 2 ^ 32 }
    ensures op { result ≡ is_op_place (slice_get (places_of (lines_now (record { given = listing.now; stands = stands.now }))) (rank (marks_of stands.now) from + count)) }
    ensures same { kept.new ≡ kept.old }
{
    let at = pass(stands, kept, from, count);
    let next = kept.node(at);
    match stands.get(next as usize) {
        None => false,
        Some(standing) => is_op_at(listing, standing, next),
    }
}
