//! Cases of listings and their layout: `printed TEXT`, `refused TEXT`, `laid BASE TEXT` and `addresses BASE TEXT`.
ghost use Rattle.std.specs.Prelude.{◌≡◌, length};
ghost use Rattle.thumb_model.specs.Listing.{places_of};

use crate::case::Case;
use label_layout::{Layout, LayoutError, LayoutFault, layout};
use listing_parser::{Listing, ListingError, parse, print};

/// The listing that the text is behind so many words.
pub(crate) fn listing_behind(words: u8, case: &Case<'_>) -> Option<Listing> {
    let text = case.text_behind(words)?;
    parse(case.alloc, &text).ok()
}

/// The text of the listing, printed again.
pub(crate) fn printed(listing: &Listing, case: &mut Case<'_>) -> Option<()> {
    let text = print(case.alloc, listing).ok()?;
    case.add_bytes(&text);
    Some(())
}

/// The line because of which a text is no listing, and the number of the kind of refusal; `no` if it is one.
pub(crate) fn refused(case: &mut Case<'_>) -> Option<()> {
    let text = case.text()?;
    match parse(case.alloc, &text).err() {
        None => case.add("no"),
        Some(ListingError::Line { number, kind }) => {
            case.add(number);
            case.add(kind as u8);
        }
        Some(ListingError::Memory) => return None,
    }
    Some(())
}

/// Adds a line that can't be laid out and the reason.
pub(crate) fn add_fault(number: u64, kind: LayoutFault, case: &mut Case<'_>) {
    case.add(number);
    match kind {
        LayoutFault::Range(distance) => {
            case.add("range");
            case.add(distance);
        }
        LayoutFault::Align(address) => {
            case.add("align");
            case.add(address);
        }
    }
}

/// The address where a listing ends, or the line because of which it can't be laid out and the reason; `full` if the Code region has no room for it.
pub(crate) fn laid(listing: &Listing, case: &mut Case<'_>) -> Option<()> {
    let base = case.hex();
    match &layout(case.alloc, listing, base) {
        Ok(laid) => case.add_hex(laid.end()),
        Err(LayoutError::Line { number, kind }) => add_fault(*number, *kind, case),
        Err(LayoutError::Memory) => case.add("full"),
    }
    Some(())
}

fn add_labels(laid: &Layout, names: &[Vec<u8>], case: &mut Case<'_>) -> Option<()> {
    for name in names {
        case.add_bytes(name);
        case.add_hex(laid.find_label(name)?);
    }
    Some(())
}

/// Adds the addresses of a listing's places, and the names of its labels with their addresses.
fn add_addresses(listing: &Listing, laid: &Layout, case: &mut Case<'_>) -> Option<()>
    requires { length laid.now.places ≡ length (places_of listing.now) }
{
    for place in 0..listing.place_count() {
        case.add_hex(laid.address(place));
    }
    for line in listing.lines() {
        add_labels(laid, &line.names, case)?;
    }
    Some(())
}

/// The addresses of a listing's places, and the names of its labels with their addresses.
pub(crate) fn addresses(listing: &Listing, case: &mut Case<'_>) -> Option<()> {
    let base = case.hex();
    let laid = layout(case.alloc, listing, base).ok()?;
    add_addresses(listing, &laid, case)
}
