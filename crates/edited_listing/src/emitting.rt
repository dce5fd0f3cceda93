//! The lines of a changed listing, made in one pass over the given lines. Lines that stay aren't copied: they only move down where lines before them are gone.
ghost use Rattle.std.specs.Prelude.{◌≡◌, ◌+◌, ◌<◌, ◌≤◌, ◌^◌, ◌++◌, ◌||◌, [], List, length, map, not, IfOk, OnOk};
ghost use Rattle.thumb_model.specs.Listing.{ListingLine as LineModel, places_of};
ghost use Rattle.thumb_model.specs.Replaced.{is_op};
ghost use Rattle.listing_parser.specs.Parsing.{own_line};
ghost use Rattle.listing_parser.specs.Views.{line_view};
ghost use Rattle.edited_listing.specs.Changes.{marks_of, rest_items};
ghost use Rattle.edited_listing.specs.Items.{Item, items_from};
ghost use Rattle.edited_listing.specs.Emitting.{is_given_at, lines_from, new_at, emit_at};

use crate::in_place::InPlace;
use crate::passing::{pass, pass_one};
use crate::standing::Standing;
use kept_places::KeptPlaces;
use listing_parser::{ListingLine, Memory, add_labels, add_new, is_op};
use std::alloc::Global;
use thumb_instr::Instr;

/// The instruction at the next kept place from `from` on, where it is new and has this home.
fn next_new(stands: &[Standing], kept: &mut KeptPlaces, from: u32, home: u32) -> Option<Instr>
    requires marks { kept.old ≡ marks_of stands.now }
    requires within { from ≤ length stands.now }
    ensures new { result ≡ new_at home (rest_items from stands.now) }
    ensures same { kept.new ≡ kept.old }
{
    let place = kept.node(from);
    match stands.get(place as usize) {
        Some(standing) => standing.new_at(home),
        None => None,
    }
}

/// Whether the next kept place from `from` on is `place`, and stands as it was given.
fn is_given_at(stands: &[Standing], kept: &mut KeptPlaces, from: u32, place: u32) -> bool
    requires marks { kept.old ≡ marks_of stands.now }
    requires within { from ≤ length stands.now }
    ensures given { result ≡ is_given_at place (rest_items from stands.now) }
    ensures same { kept.new ≡ kept.old }
{
    let next = kept.node(from);
    match stands.get(next as usize) {
        Some(standing) => next == place && standing.is_given(),
        None => false,
    }
}

/// Whether a line stays as it is: it has no instruction, or the next kept place from `from` on is the line's own and stands as it was given.
fn stays(
    line: &ListingLine,
    place: u32,
    from: u32,
    stands: &[Standing],
    kept: &mut KeptPlaces,
) -> bool
    requires marks { kept.old ≡ marks_of stands.now }
    requires within { from ≤ length stands.now }
    ensures stays { result ≡ (not (is_op (line_view line.now).statement) || is_given_at place (rest_items from stands.now)) }
    ensures same { kept.new ≡ kept.old }
{
    if is_op(line) {
        is_given_at(stands, kept, from, place)
    } else {
        true
    }
}

/// Adds the lines of the next new instructions that have this home. Answers the place after them.
fn emit_new(
    alloc: Global,
    out: &mut Vec<ListingLine>,
    home: u32,
    from: u32,
    stands: &[Standing],
    kept: &mut KeptPlaces,
) -> Result<u32, Memory>
    requires marks { kept.old ≡ marks_of stands.now }
    requires within { from ≤ length stands.now }
    requires few { length stands.now < 2 ^ 32 }
    ensures lines { IfOk result (λ next. (behind : List Item → List LineModel) → map line_view out.new.items ++ behind (rest_items next stands.now) ≡ map line_view out.old.items ++ emit_at own_line home (rest_items from stands.now) behind) }
    ensures within { IfOk result (λ next. next ≤ length stands.now) }
    ensures same { kept.new ≡ kept.old }
{
    let mut at = from;
    while let Some(instr) = next_new(stands, kept, at, home) {
        add_new(alloc, out, &[instr])?;
        at = pass_one(stands, kept, at);
    }
    Ok(at)
}

/// How far lines are emitted: the place of the next one, and the place from which on what is kept is still to be emitted.
#[derive(Clone, Copy)]
struct Passed {
    place: u32,
    from: u32,
}

/// Emits what the next line has become. Answers how far lines are emitted then.
fn emit_line(
    alloc: Global,
    lines: &mut InPlace,
    new: &mut Vec<ListingLine>,
    passed: Passed,
    stands: &[Standing],
    kept: &mut KeptPlaces,
) -> Result<Passed, Memory>
    requires some { 0 < length lines.old.left }
    requires none { new.old.items ≡ [] }
    requires marks { kept.old ≡ marks_of stands.now }
    requires within { passed.from ≤ length stands.now }
    requires few { length stands.now < 2 ^ 32 }
    requires many { passed.place + length (places_of lines.old.left) < 2 ^ 32 }
    ensures lines { IfOk result (λ p. lines.new.emitted ++ lines_from own_line p.place (rest_items p.from stands.now) lines.new.left ≡ lines.old.emitted ++ lines_from own_line passed.place (rest_items passed.from stands.now) lines.old.left) }
    ensures left { OnOk result (length lines.new.left + 1 ≡ length lines.old.left) }
    ensures many { IfOk result (λ p. p.place + length (places_of lines.new.left) ≡ passed.place + length (places_of lines.old.left)) }
    ensures within { IfOk result (λ p. p.from ≤ length stands.now) }
    ensures same { OnOk result (kept.new ≡ kept.old) }
    ensures none { OnOk result (new.new.items ≡ []) }
{
    let Passed { place, from } = passed;
    let line = lines.next();
    let places = line.statement.places();
    let next = place + places as u32;
    if stays(line, place, from, stands, kept) {
        lines.keep(alloc)?;
        let from = pass(stands, kept, from, places);
        return Ok(Passed { place: next, from });
    }
    add_labels(alloc, new, line)?;
    let from = emit_new(alloc, new, place, from, stands, kept)?;
    lines.give_way(new)?;
    Ok(Passed { place: next, from })
}

/// The lines of the changed listing.
pub(crate) fn emit(
    alloc: Global,
    given: Vec<ListingLine>,
    stands: &[Standing],
    kept: &mut KeptPlaces,
) -> Result<Vec<ListingLine>, Memory>
    requires marks { kept.old ≡ marks_of stands.now }
    requires few { length stands.now < 2 ^ 32 }
    requires many { length (places_of (map line_view given.items)) < 2 ^ 32 }
    ensures { IfOk result (λ out. map line_view out.items ≡ lines_from own_line 0 (items_from 0 stands.now) (map line_view given.items)) }
{
    let mut lines = InPlace::new(alloc, given);
    let mut new = Vec::new(alloc);
    let mut passed = Passed { place: 0, from: 0 };
    while !lines.is_at_end() {
        passed = emit_line(alloc, &mut lines, &mut new, passed, stands, kept)?;
    }
    lines.into_emitted()
}
