//! The widest layout: lines one after the other, each with the most bytes that it may take.
ghost use Rattle.std.specs.Prelude.{◌≤◌, ◌^◌, map, IfOk, MatchOption};
ghost use Rattle.listing_parser.specs.Views.{line_view};
ghost use Rattle.steady_layout.specs.Steady.{first, widest_end};
ghost use Rattle.steady_layout.specs.Starts.{AreStarts};

use crate::starts::{Start, next_start};
use label_layout::CODE_END;
use listing_parser::{ListingLine, Memory};
use std::alloc::Global;

/// Where each line begins in the widest layout of lines that begin at the base: None exactly where it ends past the Code region.
pub fn lay_widest(
    alloc: Global,
    lines: &[ListingLine],
    base: u32,
) -> Result<Option<Vec<Start>>, Memory>
    ensures { IfOk result (λ found. MatchOption found ((widest_end (first base) (map line_view lines.now)).at ≤ 2 ^ 29 → ⊥) (λ starts. AreStarts base (map line_view lines.now) starts.items)) }
{
    if base > CODE_END {
        return Ok(None);
    }
    let mut starts = Vec::with_capacity(alloc, lines.len())?;
    let mut here = Start {
        at: base,
        aligned: true,
    };
    for line in lines {
        let Some(next) = next_start(here, &line.statement) else {
            return Ok(None);
        };
        starts.push(here)?;
        here = next;
    }
    Ok(Some(starts))
}
