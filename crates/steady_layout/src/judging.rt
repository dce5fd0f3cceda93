//! Whether a listing is steady: whatever rewriting does to it, each mention stays within reach, so that no layout is needed after a replacement.
ghost use Rattle.std.specs.Prelude.{◌≡◌, ◌%◌, ◌↔◌, true, IfOk};
ghost use Rattle.steady_layout.specs.Steady.{IsSteady, all_steady as are_all_steady, first, labels_in, sets_in};
ghost use Rattle.steady_layout.specs.Starts.{AreStarts};

use crate::aims::is_steady_at;
use crate::laying::lay_widest;
use crate::starts::Start;
use listing_parser::{Listing, Memory};
use std::alloc::Global;

/// Whether each mention of the listing stays within reach. The starts are those of its lines.
fn all_steady(starts: &[Start], listing: &Listing, base: u32) -> bool
    requires { AreStarts base listing.now starts.now }
    ensures { result ≡ are_all_steady (labels_in base listing.now) (sets_in listing.now) base (first base) listing.now }
{
    for (n, line) in listing.lines().iter().enumerate() {
        if !is_steady_at(starts, listing, base, starts[n], &line.statement) {
            return false;
        }
    }
    true
}

/// Whether each mention of the listing, begun at the base, stays within reach whichever of its instructions are replaced by runs that are no longer.
///
/// Time is linear in the listing's length.
pub fn is_steady(alloc: Global, listing: &Listing, base: u32) -> Result<bool, Memory>
    requires { base % 4 ≡ 0 }
    ensures { IfOk result (λ b. (b ≡ true) ↔ IsSteady base listing.now) }
{
    match lay_widest(alloc, listing.lines(), base)? {
        Some(starts) => Ok(all_steady(&starts, listing, base)),
        None => Ok(false),
    }
}
