//! The text that cases keep for later ones: it is put together from lines, or shown without its states and proofs.
use crate::case::Case;
use crate::escapes::add_bytes;
use crate::rule_part::Given;
use std::str;

/// Begins anew, with no text.
pub(crate) fn begin(given: &mut Given) -> Option<()> {
    given.text.clear();
    Some(())
}

/// Appends a text.
pub(crate) fn add(given: &mut Given, case: &Case<'_>) -> Option<()> {
    add_bytes(&mut given.text, case.rest())
}

/// Adds the lines that begin with a letter from a to r, so without states, proofs, `seed` and `scratch`.
pub(crate) fn show(given: &Given, case: &mut Case<'_>) -> Option<()> {
    for line in str::from_utf8(&given.text).ok()?.split('\n') {
        if let [b'a'..=b'r', ..] = line.as_bytes() {
            case.add_line(line);
        }
    }
    Some(())
}
