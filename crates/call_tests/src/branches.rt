//! Tests `Listing::retargeted`, which requires that there is an instruction at the place.
use listing_parser::{Listing, parse, print};
use std::alloc::Global;
use std::test::Fail;

/// Whether a listing is printed as this text.
fn is_printed(alloc: Global, listing: &Listing, want: &str) -> Result<bool, Fail> {
    let text = print(alloc, listing)?;
    Ok(text.as_slice() == want.as_bytes())
}

/// Whether a listing whose branch at this place goes to `far` is printed as the text that is wanted; where no instruction stands there, whether none is.
fn is_aimed(
    alloc: Global,
    listing: &Listing,
    place: u32,
    want: Option<&str>,
) -> Result<bool, Fail> {
    if !listing.is_op(place) {
        return Ok(want.is_none());
    }
    let changed = listing.retargeted(alloc, place, b"far")?;
    match want {
        Some(want) => is_printed(alloc, &changed, want),
        None => Ok(false),
    }
}

/// The same of the listing that a text is.
fn is_text_aimed(alloc: Global, text: &str, place: u32, want: Option<&str>) -> Result<bool, Fail> {
    let listing = parse(alloc, text.as_bytes())?;
    is_aimed(alloc, &listing, place, want)
}

#[test]
fn branches_go_elsewhere(rt: HostRuntime) -> Result<(), Fail> {
    for (text, place, want) in [
        // the labels get a line of their own, and the comment is dropped
        (
            "f: g: beq near @ first\nnear: b far\nfar: bx lr\n",
            0,
            Some("f: g:\n\tbeq far\nnear: b far\nfar: bx lr\n"),
        ),
        // a line without a label, after a data word
        (
            "w: .word 1\nb near\nnear: b far\nfar: bx lr @ last\n",
            1,
            Some("w: .word 1\n\tb far\nnear: b far\nfar: bx lr @ last\n"),
        ),
        // no instruction at this place
        ("w: .word 1\nfar: bx lr\n", 0, None),
    ] {
        let is_right = is_text_aimed(rt.alloc(), text, place, want)?;
        assert!(rt; is_right, "{text}{place}");
    }
    Ok(())
}
