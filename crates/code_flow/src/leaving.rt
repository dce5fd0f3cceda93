//! The ways on from a place of a listing, as the definitions name them: what stands there, and where a run may go next.
ghost use Rattle.std.specs.Prelude.{◌≡◌, is_some, option_map, slice_get};
ghost use Rattle.thumb_model.specs.Listing.{code_of, is_op_place, places_of};
ghost use Rattle.thumb_model.specs.Steps.{aim_of};
ghost use Rattle.thumb_model.specs.Flow.{ways};
ghost use Rattle.listing_parser.specs.Views.{mention_view};
ghost use Rattle.code_flow.specs.Flow.{AreWays, way_list};

use crate::finding::ways_of;
use crate::way::Ways;
use listing_parser::{Listing, Mention, Place};

/// The ways on from a place. None exactly where no instruction stands: at a data word or past the last place.
pub fn ways(listing: &Listing, place: u32) -> Option<Ways>
    ensures some { is_some result ≡ is_op_place (slice_get (places_of listing.now) place) }
    ensures ways { AreWays place (ways (code_of listing.now) place) (way_list result) }
{
    if place >= listing.place_count() {
        return None;
    }
    match listing.place(place) {
        None => None,
        Some(found) => match found {
            Place::Word(_) => None,
            Place::Op { instr, mention } => {
                Some(ways_of(&instr, target(listing, mention), place))
            }
        },
    }
}

/// The place of the code label that is mentioned, if any.
pub fn target(listing: &Listing, mention: Option<&Mention>) -> Option<u32>
    ensures { result ≡ aim_of (code_of listing.now) (option_map (λ r. mention_view r.now) mention.entry) }
{
    match mention {
        None => None,
        Some(mention) => listing.place_of(mention.name.as_slice()),
    }
}
