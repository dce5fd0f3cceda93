//! What is worked out at the start: where the lines and places of a listing begin in its widest layout, by which it is sure that a branch reaches a label,
//! whichever instructions go; and the places that are due at first.
ghost use Rattle.std.specs.Prelude.{◌≡◌, ◌++◌, ◌<◌, ◌≤◌, ◌^◌, Some, true, length, map, replicate, slice_get, IfOk, OnOk};
ghost use Rattle.thumb_model.specs.Listing.{code_of, places_of};
ghost use Rattle.code_flow.specs.Marks.{AreMarks};
ghost use Rattle.listing_parser.specs.Views.{line_view};
ghost use Rattle.steady_layout.specs.Steady.{reaches as is_reached};
ghost use Rattle.flow_tidy.specs.DuePlaces.{may_change, AreDue};
ghost use Rattle.flow_tidy.specs.WidestLayout.{places_begin, IsWidestLayout, IsSteadyTo};
ghost use Rattle.flow_tidy.specs.Halves.{wide_of as one_if_wide, wides_before, IsBeyond};
ghost use Rattle.flow_tidy.specs.Quick.{IsSure};

use crate::chains::is_branch;
use crate::due_places::DuePlaces;
use code_flow::Reached;
use listing_parser::{Listing, ListingLine, Memory, Place, is_call};
use std::alloc::{AllocError, Global};
use steady_layout::{Start, lay_widest};
use thumb_instr::Instr;

/// Where the lines and places of a listing begin in its widest layout.
#[derive(Drop)]
pub(crate) struct WidestLayout {
    /// Where the listing begins.
    pub(crate) base: u32,
    /// Where each line begins.
    pub(crate) lines: Vec<Start>,
    /// For each place, where its line begins.
    pub(crate) places: Vec<Start>,
    /// For each place, how many before it are data words or calls of a label: they take four bytes, and never go.
    pub(crate) wide: Vec<u32>,
}

/// Adds the start of `count` places, the same for each.
fn put_starts(starts: &mut Vec<Start>, start: Start, count: usize) -> Result<(), AllocError>
    ensures { OnOk result (starts.new.items ≡ starts.old.items ++ replicate count start) }
{
    for _place in 0..count {
        starts.push(start)?;
    }
    Ok(())
}

/// For each place, where its line begins.
fn place_starts(
    alloc: Global,
    lines: &[ListingLine],
    starts: &[Start],
) -> Result<Vec<Start>, AllocError>
    requires { length starts.now ≡ length lines.now }
    ensures { IfOk result (λ out. out.items ≡ places_begin starts.now (map line_view lines.now)) }
{
    let mut places = Vec::with_capacity(alloc, lines.len())?;
    for (n, line) in lines.iter().enumerate() {
        put_starts(&mut places, starts[n], line.statement.places())?;
    }
    Ok(places)
}

/// What is seen of a place.
#[derive(Clone, Copy)]
struct PlaceFacts {
    /// 1 for a data word or a call of a label, else 0.
    wide: u32,
    /// Whether a change may have its cause there.
    may_change: bool,
}

/// What is seen of a place, given whether it is reached.
fn look_at(listing: &Listing, place: u32, is_reached: bool) -> PlaceFacts
    ensures wide { result.wide ≡ one_if_wide (slice_get (places_of listing.now) place) }
    ensures few { result.wide ≤ 1 }
    ensures may_change { result.may_change ≡ may_change (slice_get (places_of listing.now) place) is_reached }
{
    match listing.place(place) {
        None => PlaceFacts {
            wide: 0,
            may_change: false,
        },
        Some(Place::Word(_)) => PlaceFacts {
            wide: 1,
            may_change: false,
        },
        Some(Place::Op { instr, .. }) => PlaceFacts {
            wide: matches!(instr, Instr::Call { .. }) as u32,
            may_change: is_branch(&instr) || !(is_reached || is_call(&instr)),
        },
    }
}

/// What is seen of all places: how many before each are data words or calls of a label, and which are due at first.
struct WideAndDue {
    wide: Vec<u32>,
    due: Vec<bool>,
}

/// What is seen of all places in one pass over them.
fn look_over(alloc: Global, listing: &Listing, reached: &Reached) -> Result<WideAndDue, AllocError>
    requires reached { AreMarks (code_of listing.now) reached.now }
    ensures wide { IfOk result (λ seen. seen.wide.items ≡ wides_before 0 (places_of listing.now)) }
    ensures due { IfOk result (λ seen. AreDue (code_of listing.now) seen.due.items) }
{
    let places = listing.place_count();
    let mut wide = Vec::with_capacity(alloc, places as usize)?;
    let mut due = Vec::with_capacity(alloc, places as usize)?;
    let mut count: u32 = 0;
    for place in 0..places {
        let facts = look_at(listing, place, reached.at(place));
        wide.push(count)?;
        due.push(facts.may_change)?;
        count += facts.wide;
    }
    Ok(WideAndDue { wide, due })
}

/// Whether a branch at `from` reaches the address `to`, if its displacement from its address plus 4 may be from -2 `half` to below 2 `half` bytes.
fn is_within(half: u32, from: u32, to: u32) -> bool
    requires { half ≤ 2 ^ 23 }
    ensures { result ≡ is_reached half from (Some to) }
{
    let base = from as u64 + 4;
    (to as u64) < base + 2 * half as u64 && base <= to as u64 + 2 * half as u64
}

/// The widest layout of a listing that surely can be laid out, and the places that are due at first.
pub(crate) fn widest_layout_of(
    alloc: Global,
    listing: &Listing,
    base: u32,
    reached: &Reached,
) -> Result<(WidestLayout, DuePlaces), Memory>
    requires sure { IsSure base listing.now }
    requires reached { AreMarks (code_of listing.now) reached.now }
    ensures base { IfOk result (λ r. r.0.base ≡ base) }
    ensures widest { IfOk result (λ r. IsWidestLayout listing.now r.0) }
    ensures due { IfOk result (λ r. AreDue (code_of listing.now) r.1) }
{
    match lay_widest(alloc, listing.lines(), base)? {
        None => unreachable!(),
        Some(lines) => {
            let places = place_starts(alloc, listing.lines(), &lines)?;
            let WideAndDue { wide, due } = look_over(alloc, listing, reached)?;
            let widest = WidestLayout {
                base,
                lines,
                places,
                wide,
            };
            Ok((widest, DuePlaces::of(due)))
        }
    }
}

/// Whether a branch at a place surely reaches the label of a name, whichever instructions go. The widest layout is the listing's.
pub(crate) fn reaches(
    widest: &WidestLayout,
    listing: &Listing,
    place: u32,
    instr: &Instr,
    name: &[u8],
) -> bool
    requires widest { IsWidestLayout listing.now widest.now }
    requires within { place < length (places_of listing.now) }
    ensures { result ≡ true → IsSteadyTo widest.now.base listing.now place instr.now name.now }
{
    let Some(line) = listing.label_line(name) else {
        return false;
    };
    let from = widest.places[place as usize];
    let to = widest.lines[line];
    match instr {
        Instr::BranchIf { .. } => is_within(128, from.at, to.at),
        Instr::Branch { .. } => is_within(1024, from.at, to.at),
        _ => false,
    }
}

/// Whether a branch surely doesn't reach a label, by the half-words before each of them, if its displacement may be from -2 `half` to below 2 `half` bytes.
pub(crate) fn is_beyond(half: u64, from: u64, to: u64) -> bool
    requires half { half ≤ 2 ^ 23 }
    requires from { from < 2 ^ 33 }
    requires to { to < 2 ^ 33 }
    ensures { result ≡ true → IsBeyond half from to }
{
    if from < to {
        from + half + 2 <= to
    } else {
        to + half < from + 2
    }
}
