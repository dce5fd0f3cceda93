//! Tests `reached`, whose result is read by `Reached::at`, which requires a place of the listing.
use code_flow::reached;
use listing_parser::parse;
use std::alloc::Global;
use std::test::Fail;
use step_ledger::{Counted, Steps};

/// Which places of the listing are reachable, and how many visits that took to find out.
fn marks(alloc: Global, text: &[u8]) -> Result<(Vec<bool>, u64), Fail> {
    let listing = parse(alloc, text)?;
    let mut steps = Steps::new(Counted::new());
    let found = reached(alloc, &listing, &mut steps)?;
    let mut marks = Vec::new(alloc);
    for place in 0..listing.place_count() {
        marks.push(found.at(place))?;
    }
    Ok((marks, steps.ledger().count()))
}

#[test]
fn places_are_reached_from_code_points(rt: HostRuntime) -> Result<(), Fail> {
    // no label stands before an instruction
    let (found, visits) = marks(rt.alloc(), b"nop\nw: .word 1\n")?;
    assert_eq!(rt; found.as_slice(), [false, false].as_slice());
    assert_eq!(rt; visits, 0);
    // two labels, a return point and the place after it
    let text = b"f: b g\nnop\n.word 1\ng: bl puts\nnop\nbx lr\n";
    let (found, visits) = marks(rt.alloc(), text)?;
    assert_eq!(rt;
        found.as_slice(),
        [true, false, false, true, true, true].as_slice()
    );
    assert_eq!(rt; visits, 4);
    Ok(())
}
