//! The cases about what reads, lays out and runs listings: each line is a case, and is answered by one line or a few.
//!
//! A case is a word that says what is asked, and its arguments, separated by single blanks. The last argument may be a text, which goes on to the line's end,
//! in the spelling of `escapes`. The machine's words are hexadecimal, other numbers decimal.
use crate::case::Case;
use crate::listings::listing_behind;
use crate::{arithmetic, codes, listings, living, machines, stepping, tidying};
use listing_parser::Listing;

/// How many words stand before the text of the listing that a case is about.
fn words_before(kind: &str) -> u8 {
    match kind {
        "printed" => 0,
        "fits" => 3,
        "run" => 5,
        _ => 1,
    }
}

/// Answers a case about a listing.
fn answer_about(kind: &str, listing: &Listing, case: &mut Case<'_>) -> Option<()> {
    match kind {
        "printed" => listings::printed(listing, case),
        "live" => living::after(listing, case),
        "laid" => listings::laid(listing, case),
        "addresses" => listings::addresses(listing, case),
        "named" => machines::named(listing, case),
        "fits" => machines::fits(listing, case),
        "run" => machines::run(listing, case),
        _ => None,
    }
}

/// Reads the listing that a case is about, and answers the case.
fn answer_listing(kind: &str, case: &mut Case<'_>) -> Option<()> {
    let listing = listing_behind(words_before(kind), case)?;
    answer_about(kind, &listing, case)
}

/// Answers a case; None if it can't be read, or memory runs out.
fn answer_case(case: &mut Case<'_>) -> Option<()> {
    match case.word() {
        "sum" => arithmetic::sum(case),
        "shift" => arithmetic::shift(case),
        "reverse" => arithmetic::reverse(case),
        "extend" => arithmetic::extend(case),
        "halfwords" => codes::halfwords(case),
        "code" => codes::code(case),
        "branch" => codes::branch(case),
        "decode" => codes::decoded(case),
        "text" => codes::text(case),
        "step" => stepping::stepped(case),
        "refused" => listings::refused(case),
        "ledger" => living::ledger(case),
        "tidied" => tidying::tidied(case),
        kind => answer_listing(kind, case),
    }
}

/// Answers a case and ends the line.
pub(crate) fn answer(case: &mut Case<'_>) {
    let answered = answer_case(case);
    case.end(answered);
    case.end_line();
}
