//! A listing as it was given, with what is known of each of its places, so that no line is looked at again.
ghost use Rattle.std.specs.Prelude.{◌≡◌, IfOk};
ghost use Rattle.edited_listing.specs.Known.{last_breaks};

use listing_parser::Listing;
use std::alloc::{AllocError, Global};
use std::marker::Model;
use thumb_instr::Instr;
use window_runs::rows::{WindowPlace, rows};

/// A listing as it was given. Contracts see its lines.
///
/// `rows` has its places as windows see them. `breaks` has for each place one more than the last place up to it that isn't joined to the place before,
/// `labels` one more than the place of the last label up to it; 0 is none.
#[derive(Drop)]
pub(crate) struct GivenListing {
    listing: Listing,
    rows: Vec<WindowPlace>,
    breaks: Vec<usize>,
    labels: Vec<usize>,
}

impl Model for GivenListing {
    ghost use Rattle.std.specs.Prelude.{List};
    ghost use Rattle.thumb_model.specs.Listing.{ListingLine};

    ghost Value = { List ListingLine };

    ghost use Rattle.edited_listing.specs.Known.{IsKnown};

    ghost view = { λ s. s.listing };

    ghost invariant = { IsKnown };
}

/// For each place of rows, one more than the last place up to it that isn't joined to the place before; 0 where there is none.
fn last_breaks(alloc: Global, rows: &[WindowPlace]) -> Result<Vec<usize>, AllocError>
    ensures { IfOk result (λ breaks. breaks.items ≡ last_breaks 0 0 rows.now) }
{
    let mut breaks = Vec::with_capacity(alloc, rows.len())?;
    let mut last = 0;
    for row in rows {
        if !row.is_joined {
            last = breaks.len() + 1;
        }
        breaks.push(last)?;
    }
    Ok(breaks)
}

impl GivenListing {
    ghost use Rattle.std.specs.Prelude.{◌≡◌, ◌-◌, ◌<◌, ◌≤◌, ◌↔◌, suc, true, false, length, slice_get, IfOk};
    ghost use Rattle.thumb_model.specs.Listing.{labels_from, places_of};
    ghost use Rattle.window_runs.specs.Rows.{rows_from};
    ghost use Rattle.edited_listing.specs.Edited.{instr_in};
    ghost use Rattle.edited_listing.specs.Known.{all_from, joined_at, last_labels, HasLabelIn};

    /// The given listing with its tables. `labels` has for each place one more than the place of the last label up to it.
    pub(crate) fn new(
        alloc: Global,
        listing: Listing,
        labels: Vec<usize>,
    ) -> Result<Self, AllocError>
        requires { labels.items ≡ last_labels 0 0 listing }
        ensures { IfOk result (λ g. g ≡ listing) }
    {
        let rows = rows(alloc, listing.lines())?;
        let breaks = last_breaks(alloc, &rows)?;
        Ok(GivenListing {
            listing,
            rows,
            breaks,
            labels,
        })
    }

    /// The listing.
    pub(crate) fn listing(&self) -> &Listing
        ensures { result.now ≡ self.now }
    {
        &self.listing
    }

    /// The listing alone.
    pub(crate) fn into_listing(self) -> Listing
        ensures { result ≡ self }
    {
        self.listing
    }

    /// The instruction at a place, where it may stand in a window.
    pub(crate) fn instr(&self, place: u32) -> Option<Instr>
        requires { place < length (places_of self.now) }
        ensures { result ≡ instr_in (slice_get (places_of self.now) place) }
    {
        self.rows[place as usize].instr
    }

    /// Whether neither a label nor an alignment line stands between two places.
    pub(crate) fn is_joined(&self, from: u32, to: u32) -> bool
        requires order { from ≤ to }
        requires within { to < length (places_of self.now) }
        ensures { result ≡ all_from (joined_at (rows_from false self.now)) (suc from) (to - from) }
    {
        self.breaks[to as usize] <= from as usize + 1
    }

    /// Whether a label stands at one of the places from `from` up to and including `to`.
    pub(crate) fn has_label(&self, from: u32, to: u32) -> bool
        requires { to < length (places_of self.now) }
        ensures { (result ≡ true) ↔ HasLabelIn (labels_from 0 self.now) from to }
    {
        self.labels[to as usize] > from as usize
    }
}
