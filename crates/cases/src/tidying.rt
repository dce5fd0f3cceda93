//! Cases of tidying: `tidied BASE TEXT`.
use crate::case::Case;
use crate::listings::{add_fault, listing_behind, printed};
use flow_tidy::{Tidy, TidyError, tidy};
use step_ledger::{Counted, Steps};

/// Adds how many changes were made, and the text of what is left; or the line by which a listing can't be laid out, and why.
fn add_tidied(tidied: &Result<Tidy, TidyError>, case: &mut Case<'_>) -> Option<()> {
    match tidied {
        Ok(tidied) => {
            case.add(tidied.changes);
            printed(&tidied.listing, case)
        }
        Err(TidyError::Line { number, kind }) => {
            add_fault(*number, *kind, case);
            Some(())
        }
        Err(TidyError::Memory) => None,
    }
}

/// How many changes are made, and the text of what is left of a listing; or the line by which it can't be laid out, and why.
pub(crate) fn tidied(case: &mut Case<'_>) -> Option<()> {
    let base = case.hex();
    let listing = listing_behind(0, case)?;
    let mut steps = Steps::new(Counted::new());
    let tidied = tidy(case.alloc, listing, base, &mut steps);
    add_tidied(&tidied, case)
}
