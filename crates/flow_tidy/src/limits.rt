//! Whether lines may stand as they are: they can be laid out, and there are neither too many nor too long ones.
ghost use Rattle.std.specs.Prelude.{◌≡◌, ◌↔◌, ◌≤◌, ◌&&◌, true, IsTrue, IfOk, Some, map};
ghost use Rattle.std.specs.List.{prefix_len};
ghost use Rattle.listing_parser.specs.Grammar.{longest_line, most_lines};
ghost use Rattle.listing_parser.specs.Parsing.{line_mentioning};
ghost use Rattle.listing_parser.specs.Views.{line_view};
ghost use Rattle.flow_tidy.specs.Tidying.{line_length as length_of, setting};
ghost use Rattle.flow_tidy.specs.Made.{is_no_newline, AreShort, AreWithin, IsAccepted, IsWithin};
ghost use Rattle.flow_tidy.specs.Quick.{counts_for, HaveRoom};

use crate::chains::is_branch;
use crate::found::Changed;
use label_layout::{LayoutError, layout};
use listing_parser::{LONGEST_LINE, Listing, ListingLine, MOST_LINES, Memory, Statement};
use std::alloc::Global;
use thumb_instr::Instr;

/// How many bytes the line of a branch has at most beside the name of its label.
const BRANCH_BYTES: usize = 6;

/// How many bytes a line has without its newline.
fn line_length(text: &[u8]) -> usize
    ensures { result ≡ prefix_len is_no_newline text.now }
{
    text.iter().take_while(|b| **b != b'\n').count()
}

/// Whether a line isn't too long. Mostly it is short even with its newline.
fn is_short(text: &[u8]) -> bool
    ensures { IsTrue result ↔ length_of text.now ≤ longest_line }
{
    if text.len() <= LONGEST_LINE {
        return true;
    }
    line_length(text) <= LONGEST_LINE
}

/// Whether no line is too long.
fn are_short(lines: &[ListingLine]) -> bool
    ensures { IsTrue result ↔ AreShort longest_line (map line_view lines.now) }
{
    for line in lines {
        if !is_short(&line.text) {
            return false;
        }
    }
    true
}

/// Whether there are neither too many lines nor too long ones.
fn are_within_limits(lines: &[ListingLine]) -> bool
    ensures { IsTrue result ↔ AreWithin most_lines longest_line (map line_view lines.now) }
{
    lines.len() <= MOST_LINES && are_short(lines)
}

/// A listing in which nothing moved, if it has neither too many lines nor too long ones; else None.
pub(crate) fn within_limits(listing: Listing) -> Option<Changed>
    ensures { IsWithin most_lines longest_line listing result }
{
    if are_within_limits(listing.lines()) {
        Some(Changed {
            listing,
            moved: None,
        })
    } else {
        None
    }
}

/// A listing with its layout, if it can be laid out from the base and is within the limits; else None.
pub(crate) fn accepted(
    alloc: Global,
    listing: Listing,
    base: u32,
) -> Result<Option<Changed>, Memory>
    ensures { IfOk result (IsAccepted (setting base) listing) }
{
    if !are_within_limits(listing.lines()) {
        return Ok(None);
    }
    match layout(alloc, &listing, base) {
        Ok(laid) => Ok(Some(Changed {
            listing,
            moved: Some(laid),
        })),
        Err(LayoutError::Line { .. }) => Ok(None),
        Err(LayoutError::Memory) => Err(Memory),
    }
}

/// How many lines may come of a line: two where an instruction's labels may get a line of their own.
fn counts_for(line: &ListingLine) -> usize
    ensures { result ≡ counts_for (line_view line.now) }
{
    match &line.statement {
        Statement::Instruction { .. } => { if line.names.is_empty() { 1 } else { 2 } }
        _ => 1,
    }
}

/// Whether lines surely stay within the limits, whichever of their instructions go.
pub(crate) fn leave_room(lines: &[ListingLine]) -> bool
    ensures { result ≡ true → HaveRoom most_lines longest_line (map line_view lines.now) }
{
    let mut taken = 0;
    for line in lines {
        taken += counts_for(line);
        if taken > MOST_LINES {
            return false;
        }
        if !is_short(&line.text) {
            return false;
        }
    }
    true
}

/// Whether the line of a branch to a label surely is no longer than a line may be.
pub(crate) fn is_short_branch(instr: &Instr, name: &[u8]) -> bool
    ensures { result ≡ true → length_of (line_mentioning instr.now (Some (record { name = name.now; plus = 0 }))) ≤ longest_line }
{
    if !is_branch(instr) {
        return false;
    }
    name.len() <= LONGEST_LINE - BRANCH_BYTES
}
