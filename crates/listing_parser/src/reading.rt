//! Reads a text line by line: limits, newline, comment and labels are dealt with here, the rest of a line in `statement`.
ghost use Rattle.std.specs.Prelude.{◌≡◌, ◌<◌, ◌≤◌, true, false, map, option_map, length, IfOk, MatchOption};
ghost use Rattle.ascii_scan.specs.Lines.{lines_in, whole};
ghost use Rattle.ascii_scan.specs.Source.{line_view as source_view};
ghost use Rattle.listing_parser.specs.Grammar.{begins_label, body, checked_line, front_name, from_colon, labels_at_front, read_line, read_lines, without_first, without_return};
ghost use Rattle.listing_parser.specs.ToldView.{read_view};
ghost use Rattle.listing_parser.specs.Results.{Gives};

use crate::errors::{ListingError, ListingFault};
use crate::line::ListingLine;
use crate::splitting::{code, split_colon, without_blanks};
use crate::statement::statement;
use ascii_scan::{Lines, SourceLine};
use std::alloc::{AllocError, Global};
use thumb_syntax::is_name;

/// How many lines a listing has at most.
pub const MOST_LINES: usize = 262_144;

/// How many bytes a line has at most, without its newline.
pub const LONGEST_LINE: usize = 1024;

/// The name of the label at the front, and the bytes after its colon.
fn next_label(bytes: &[u8]) -> Option<(&[u8], &[u8])>
    ensures label { MatchOption result (begins_label bytes.now ≡ false) (λ r. (begins_label bytes.now ≡ true) × (r.0.now ≡ front_name bytes.now) × (r.1.now ≡ without_first (from_colon bytes.now))) }
{
    let (name, from_colon) = split_colon(without_blanks(bytes));
    match from_colon.split_first() {
        None => None,
        Some((_, after)) => {
            if is_name(name) {
                Some((name, after))
            } else {
                None
            }
        }
    }
}

/// The labels at the front, and the bytes after the last one's colon.
fn labels(alloc: Global, bytes: &[u8]) -> Result<(Vec<Vec<u8>>, &[u8]), AllocError>
    ensures labels { IfOk result (λ r. (map (λ n. n.items) r.0.items, r.1.now) ≡ labels_at_front bytes.now) }
    ensures within { IfOk result (λ r. length r.1.now ≤ length bytes.now) }
{
    let mut names = Vec::new(alloc);
    let mut rest = bytes;
    while let Some((name, after)) = next_label(rest) {
        let name = name.to_vec(alloc)?;
        names.push(name)?;
        rest = after;
    }
    Ok((names, rest))
}

/// The bytes without a carriage return at their end.
fn without_return(bytes: &[u8]) -> &[u8]
    ensures { result.now ≡ without_return bytes.now }
{
    match bytes.split_last() {
        None => bytes,
        Some((last, front)) => { if *last == b'\r' { front } else { bytes } }
    }
}

/// The line's bytes without its newline, and without a carriage return right before that.
fn body<'a>(source: SourceLine<'a>) -> &'a [u8]
    ensures { result.now ≡ body (source_view source.entry) }
{
    if source.is_ended {
        without_return(source.text)
    } else {
        source.text
    }
}

/// The line's bytes with its newline, where it has one.
fn whole_text(alloc: Global, source: SourceLine<'_>) -> Result<Vec<u8>, AllocError>
    ensures { IfOk result (λ v. v.items ≡ whole (source_view source.entry)) }
{
    let mut text = Vec::with_capacity(alloc, source.text.len() + 1)?;
    text.extend_from_slice(source.text)?;
    if source.is_ended {
        text.push(b'\n')?;
    }
    Ok(text)
}

/// The line, or None where it is outside the grammar.
#[tactic(auto, unfolding(crate::specs::Grammar::read_line))]
fn read_line(alloc: Global, source: SourceLine<'_>) -> Result<Option<ListingLine>, AllocError>
    ensures { IfOk result (λ o. option_map read_view o ≡ read_line (source_view source.entry)) }
{
    let code = code(body(source));
    let (names, after) = labels(alloc, code)?;
    match statement(alloc, after)? {
        None => Ok(None),
        Some(told) => {
            let text = whole_text(alloc, source)?;
            Ok(Some(ListingLine {
                names,
                statement: told.statement,
                mark: told.mark,
                text,
                front: code.len() - after.len(),
            }))
        }
    }
}

/// The line, or why it is refused.
#[tactic(auto, unfolding(crate::specs::Grammar::checked_line))]
fn checked_line(alloc: Global, source: SourceLine<'_>) -> Result<ListingLine, ListingError>
    ensures { Gives read_view result (checked_line (source_view source.entry)) }
{
    if source.number > MOST_LINES || source.text.len() > LONGEST_LINE {
        return Err(ListingError::Line {
            number: source.number as u64,
            kind: ListingFault::Limit,
        });
    }
    match read_line(alloc, source)? {
        Some(line) => Ok(line),
        None => Err(ListingError::Line {
            number: source.number as u64,
            kind: ListingFault::Shape,
        }),
    }
}

/// A length that few lines are shorter than. Room is reserved for as many lines as a text of such lines would have.
const SHORT_LINE: usize = 8;

/// All lines, or the first that can't be read.
pub fn read_lines(alloc: Global, text: &[u8]) -> Result<Vec<ListingLine>, ListingError>
    ensures { Gives (λ v. map read_view v.items) result (read_lines (lines_in text.now)) }
{
    let mut lines = Vec::with_capacity(alloc, (text.len() / SHORT_LINE).min(MOST_LINES))?;
    for source in Lines::new(text) {
        match checked_line(alloc, source) {
            Ok(line) => lines.push(line)?,
            Err(error) => return Err(error),
        }
    }
    Ok(lines)
}
