//! The places of code points: those of code labels, and the places right after calls.
ghost use Rattle.std.specs.Prelude.{◌≡◌, ℕ, ◌+◌, ◌<◌, ◌==◌, ◌&&◌, ◌||◌, length, map, slice_get, IfOk};
ghost use Rattle.thumb_model.specs.Effect.{one_of};
ghost use Rattle.thumb_model.specs.Listing.{code_of, is_op_place, label_places, labels_from, places_of, return_places};
ghost use Rattle.listing_parser.specs.Views.{line_view, statement_view};
ghost use Rattle.kept_places.specs.Marks.{marked};
ghost use Rattle.code_flow.specs.Points.{HasPoints, is_call_statement, some_name};

use listing_parser::{Listing, ListingLine, Statement, is_call};
use std::alloc::{AllocError, Global};

/// For each place, and for the one past the last, whether it is a code point.
pub fn all_points(alloc: Global, listing: &Listing) -> Result<Vec<bool>, AllocError>
    ensures len { IfOk result (λ marks. length marks.items ≡ length (places_of listing.now) + 1) }
    ensures points { IfOk result (λ marks. HasPoints (code_of listing.now) marks.items) }
{
    let mut marks = vec![in alloc; false; listing.place_count() as usize + 1]?;
    mark_lines(&mut marks, listing, listing.lines());
    Ok(marks)
}

/// Marks the code points of lines, which are the listing's: the places of code labels, and those right after calls.
fn mark_lines(marks: &mut Vec<bool>, listing: &Listing, lines: &[ListingLine])
    requires len { length marks.old.items ≡ length (places_of listing.now) + 1 }
    requires lines { map line_view lines.now ≡ listing.now }
    ensures len { length marks.new.items ≡ length marks.old.items }
    ensures marks { (q : ℕ) → marked marks.new.items q ≡ (marked marks.old.items q || one_of q (label_places (places_of listing.now) (labels_from 0 listing.now)) || one_of q (return_places 0 (places_of listing.now))) }
{
    // For the prover alone: the type of the answer says that the places are fewer than 2^32.
    let _count = listing.place_count();
    let mut place = 0usize;
    for line in lines {
        let next = place + line.statement.places();
        mark(marks, place, labels_code(line, listing, place as u32));
        mark(marks, next, is_call_line(&line.statement));
        place = next;
    }
}

/// Marks a place if it is a code point.
fn mark(marks: &mut Vec<bool>, place: usize, is_point: bool)
    requires { place < length marks.old.items }
    ensures len { length marks.new.items ≡ length marks.old.items }
    ensures marks { (q : ℕ) → marked marks.new.items q ≡ (marked marks.old.items q || (is_point && (q == place))) }
{
    if is_point {
        marks[place] = true;
    }
}

/// Whether a line has a label and an instruction stands at `place`, the first place from the line on.
fn labels_code(line: &ListingLine, listing: &Listing, place: u32) -> bool
    ensures { result ≡ (some_name (line_view line.now).names && is_op_place (slice_get (places_of listing.now) place)) }
{
    !line.names.is_empty() && listing.is_op(place)
}

/// Whether a statement is a call.
fn is_call_line(statement: &Statement) -> bool
    ensures { result ≡ is_call_statement (statement_view statement.now) }
{
    match statement {
        Statement::Instruction { instr, mention: _ } => is_call(instr),
        _ => false,
    }
}
