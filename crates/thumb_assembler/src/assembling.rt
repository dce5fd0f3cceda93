//! Assembles a listing: the codes, data and padding of each line, where the layout places that line.
ghost use Rattle.std.specs.Prelude.{◌≡◌, ◌+◌, ◌%◌, IfOk, MatchResult, None, length};
ghost use Rattle.thumb_model.specs.Layout.{Layable};
ghost use Rattle.listing_parser.specs.Parsing.{IsListing, text_of_lines};
ghost use Rattle.label_layout.specs.Addresses.{AreAddresses};
ghost use Rattle.thumb_assembler.specs.Bytes.{AreImage, first_flaw, IsRefusal};
ghost use Rattle.thumb_assembler.specs.Runs.{IsAssembled};

use crate::errors::ImageError;
use crate::pushing::push_statement;
use label_layout::Layout;
use listing_parser::Listing;
use std::alloc::Global;

/// The image of a listing: its bytes from the layout's base to its end. The layout is the listing's, and its base is even.
///
/// Instructions and data words are at the layout's addresses, lowest byte first, each branch and literal load with its distance; padding is `nop`
/// (BF00) for each two bytes. A word with a name holds a code label's address + 1, another label's address, or the address that the listing sets, plus the
/// added number. A listing has no image where a name in `b`, `bl` or `.word` has no address, or where a `.set` gives one that lies in the image; the
/// error names the first such line. Time is linear in the listing's length.
pub fn assemble(alloc: Global, listing: &Listing, layout: &Layout) -> Result<Vec<u8>, ImageError>
    requires listed { IsListing (text_of_lines listing.now) listing.now }
    requires laid { AreAddresses listing.now layout.now }
    requires layable { Layable layout.now.base listing.now }
    requires even { layout.now.base % 2 ≡ 0 }
    ensures image { IfOk result (λ bytes. AreImage layout.now.base listing.now bytes.items) }
    ensures verdict { MatchResult result (λ _. first_flaw layout.now.base listing.now ≡ None) (IsRefusal layout.now.base listing.now) }
    ensures assembled { IfOk result (λ bytes. IsAssembled layout.now.base listing.now bytes.items) }
    ensures size { IfOk result (λ bytes. layout.now.base + length bytes.items ≡ layout.now.end) }
{
    let base = layout.base();
    let Ok(mut bytes) = Vec::with_capacity(alloc, (layout.end() - base) as usize) else {
        return Err(ImageError::Memory);
    };
    let mut number = 0;
    for line in listing.lines() {
        let at = base + bytes.len() as u32;
        number += 1;
        if let Err(flaw) = push_statement(&mut bytes, listing, layout, at, &line.statement) {
            return Err(flaw.at(number));
        }
    }
    Ok(bytes)
}
