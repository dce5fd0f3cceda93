//! The table of code points, made once: a branch by a word lands at the least place whose code point has this word.
ghost use Rattle.std.specs.Prelude.{◌≡◌, ◌==◌, ◌<◌, ◌-◌, ◌^◌, ◌∷◌, [], ◌++◌, ℕ, List, map, nat_eq, IfOk, OnOk, if◌then◌else◌};
ghost use Rattle.std.specs.HashMap.{get};
ghost use Rattle.thumb_model.specs.Listing.{code_of, labels_at, labels_from, places_of};
ghost use Rattle.thumb_model.specs.Naming.{points, points_of, returns_from};
ghost use Rattle.thumb_model.specs.Steps.{least_or, point_among};
ghost use Rattle.listing_parser.specs.Views.{line_view, place_view};
ghost use Rattle.thumb_machine.specs.Making.{merged};
ghost use Rattle.thumb_machine.specs.Naming.{naming_of};
ghost use Rattle.thumb_machine.specs.Walking.{name_points};

use crate::making::calls_in;
use crate::naming::Naming;
use listing_parser::{Listing, ListingLine, Place};
use std::alloc::{AllocError, Global};
use std::collections::HashMap;

/// Notes a place of a word, where no lesser one was noted.
fn add_point(points: &mut HashMap<u32, u32>, word: u32, place: u32) -> Result<(), AllocError>
    ensures { OnOk result ((w : ℕ) → get nat_eq points.new w ≡ (if w == word then least_or place (get nat_eq points.old w) else get nat_eq points.old w)) }
{
    let least = match points.get(&word) {
        None => place,
        Some(other) => place.min(*other),
    };
    points.insert(word, least)?;
    Ok(())
}

/// Notes the place of labels that are code.
fn add_names(
    points: &mut HashMap<u32, u32>,
    naming: &Naming,
    names: &[Vec<u8>],
    place: u32,
) -> Result<(), AllocError>
    ensures { OnOk result ((w : ℕ) (rest : List (ℕ × ℕ)) → merged (get nat_eq points.new w) (point_among w rest) ≡ merged (get nat_eq points.old w) (point_among w (name_points (naming_of naming.now) place (map (λ name. name.items) names.now) ++ rest))) }
{
    for name in names {
        add_point(points, naming.word(name.as_slice()), place)?;
    }
    Ok(())
}

/// Notes the place of a line's labels, where they are code.
fn add_line(
    points: &mut HashMap<u32, u32>,
    naming: &Naming,
    listing: &Listing,
    names: &[Vec<u8>],
    place: u32,
) -> Result<(), AllocError>
    ensures { OnOk result ((w : ℕ) (rest : List (ℕ × ℕ)) → merged (get nat_eq points.new w) (point_among w rest) ≡ merged (get nat_eq points.old w) (point_among w (points_of (naming_of naming.now) (places_of listing.now) (labels_at place (map (λ name. name.items) names.now)) ++ rest))) }
{
    if !listing.is_op(place) {
        return Ok(());
    }
    add_names(points, naming, names, place)
}

/// Notes the places of the code labels of lines, which are the listing's.
fn add_labels(
    points: &mut HashMap<u32, u32>,
    naming: &Naming,
    listing: &Listing,
    lines: &[ListingLine],
) -> Result<(), AllocError>
    requires { map line_view lines.now ≡ listing.now }
    ensures { OnOk result ((w : ℕ) (rest : List (ℕ × ℕ)) → merged (get nat_eq points.new w) (point_among w rest) ≡ merged (get nat_eq points.old w) (point_among w (points_of (naming_of naming.now) (places_of listing.now) (labels_from 0 (map line_view lines.now)) ++ rest))) }
{
    // For the prover alone: the type of the answer says that the places are fewer than 2^32.
    let _count = listing.place_count();
    let mut place = 0usize;
    for line in lines {
        add_line(points, naming, listing, line.names.as_slice(), place as u32)?;
        place += line.statement.places();
    }
    Ok(())
}

/// Notes the return point of the place, where it is call number `call`.
fn add_return(
    points: &mut HashMap<u32, u32>,
    naming: &Naming,
    found: Place<'_>,
    call: usize,
    place: u32,
) -> Result<(), AllocError>
    requires { place < 2 ^ 32 - 1 }
    ensures { OnOk result ((w : ℕ) (rest : List (ℕ × ℕ)) → merged (get nat_eq points.new w) (point_among w rest) ≡ merged (get nat_eq points.old w) (point_among w (returns_from (naming_of naming.now) call place (place_view found.entry ∷ []) ++ rest))) }
{
    if calls_in(found) == 0 {
        return Ok(());
    }
    add_point(points, naming.return_word(call), place + 1)
}

/// Notes the return points of the calls.
fn add_returns(
    points: &mut HashMap<u32, u32>,
    naming: &Naming,
    listing: &Listing,
) -> Result<(), AllocError>
    ensures { OnOk result ((w : ℕ) (rest : List (ℕ × ℕ)) → merged (get nat_eq points.new w) (point_among w rest) ≡ merged (get nat_eq points.old w) (point_among w (returns_from (naming_of naming.now) 0 0 (places_of listing.now) ++ rest))) }
{
    let mut calls = 0usize;
    for place in 0..listing.place_count() {
        let Some(found) = listing.place(place) else {
            unreachable!()
        };
        add_return(points, naming, found, calls, place)?;
        calls += calls_in(found);
    }
    Ok(())
}

/// For each word that code points have, their least place.
pub(crate) fn points_of(
    alloc: Global,
    naming: &Naming,
    listing: &Listing,
) -> Result<HashMap<u32, u32>, AllocError>
    ensures { IfOk result (λ found. (w : ℕ) → get nat_eq found w ≡ point_among w (points (naming_of naming.now) (code_of listing.now))) }
{
    let mut found = HashMap::new(alloc);
    add_labels(&mut found, naming, listing, listing.lines())?;
    add_returns(&mut found, naming, listing)?;
    Ok(found)
}
