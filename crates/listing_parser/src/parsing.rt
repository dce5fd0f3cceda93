//! The crate's main calls: `parse` reads a text as a listing, or answers the first line that is refused and why; `print` gives a listing's text, in which
//! untouched lines keep their bytes.
ghost use Rattle.std.specs.Prelude.{◌≡◌, IfOk};
ghost use Rattle.listing_parser.specs.Parsing.{text_of_lines};
ghost use Rattle.listing_parser.specs.Verdicts.{Parses};

use crate::errors::{ListingError, ListingFault, Memory};
use crate::listing::Listing;
use crate::reading::read_lines;
use crate::targets::{first_target, functions};
use crate::twice::first_twice;
use std::alloc::Global;

/// The listing that a text is, or the first line that is refused. The first line that is one too many, too long or outside the grammar is reported; without
/// such a line, the first that defines a name again; without any of these, the first that mentions a name which isn't what its statement needs.
pub fn parse(alloc: Global, text: &[u8]) -> Result<Listing, ListingError>
    ensures { Parses text.now result }
{
    let lines = match read_lines(alloc, text) {
        Ok(lines) => lines,
        Err(error) => return Err(error),
    };
    if let Some(number) = first_twice(alloc, &lines)? {
        return Err(ListingError::Line {
            number,
            kind: ListingFault::Twice,
        });
    }
    let functions = functions(alloc, &lines)?;
    let listing = Listing::of(alloc, lines)?;
    match first_target(&listing, &functions) {
        None => Ok(listing),
        Some(number) => Err(ListingError::Line {
            number,
            kind: ListingFault::Target,
        }),
    }
}

/// The text of a listing: its lines' bytes, joined.
pub fn print(alloc: Global, listing: &Listing) -> Result<Vec<u8>, Memory>
    ensures { IfOk result (λ v. v.items ≡ text_of_lines listing.now) }
{
    let mut text = Vec::new(alloc);
    for line in listing.lines() {
        text.extend_from_slice(&line.text)?;
    }
    Ok(text)
}
