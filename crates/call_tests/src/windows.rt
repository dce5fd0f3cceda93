//! Replaces a window of two instructions with one, for the tests of layouts and live sets.
ghost use Rattle.std.specs.Prelude.{◌≡◌, true, IfOk, IfSome};
ghost use Rattle.thumb_instr.specs.Window.{is_in_window};
ghost use Rattle.listing_parser.specs.Replacing.{names_no_label};
ghost use Rattle.call_tests.specs.Windows.{GaveWay};

use listing_parser::{Listing, Memory};
use std::alloc::Global;
use thumb_instr::{Extension, Instr, Low};
use window_runs::rows::rows;
use window_runs::runs::run;

/// The listing with one instruction in place of the two from this place on; None if there is no window of two instructions there.
pub(crate) fn with_one(
    alloc: Global,
    listing: &Listing,
    place: u32,
    instr: Instr,
) -> Result<Option<Listing>, Memory>
    requires { names_no_label instr ≡ true }
    ensures { IfOk result (λ found. IfSome found (λ changed. GaveWay listing.now place instr changed)) }
{
    let rows = rows(alloc, listing.lines())?;
    let run = run(&rows, place as usize, 2);
    if run.len() == 2 {
        let changed = listing.replaced(alloc, place, 2, &[instr])?;
        Ok(Some(changed))
    } else {
        Ok(None)
    }
}

/// `uxtb r0, r0`
pub(crate) fn uxtb() -> Instr
    ensures unlabelled { names_no_label result ≡ true }
    ensures in_window { is_in_window result ≡ true }
{
    Instr::Extend {
        extension: Extension::Uxtb,
        target: Low::of(0),
        source: Low::of(0),
    }
}
