//! Making the lines of a draft: they are changed in place up to the first line that doesn't stay one line; then all are moved to a new list in one pass.
ghost use Rattle.std.specs.Prelude.{◌≡◌, ◌≤◌, ◌+◌, ◌++◌, ◌∷◌, [], Some, true, false, length, map, take, drop, option_map, IfOk, OnOk};
ghost use Rattle.thumb_model.specs.Listing.{places_of};
ghost use Rattle.thumb_model.specs.Replaced.{is_op, labels_kept};
ghost use Rattle.listing_parser.specs.Views.{line_view};
ghost use Rattle.listing_draft.specs.Drafted.{line_now, now_of};
ghost use Rattle.listing_draft.specs.Invariant.{names_of};

use kept_places::KeptPlaces;
use listing_parser::{ListingLine, Memory, Statement, branch_line, is_op, line_of_labels};
use std::alloc::{AllocError, Global};

/// How many lines were passed, and how many places they have.
#[derive(Clone, Copy)]
struct Passed {
    lines: usize,
    places: u32,
}

/// Adds what stays of a line whose instruction goes: its labels.
fn emit_labels(out: &mut Vec<ListingLine>, line: ListingLine) -> Result<(), AllocError>
    ensures { OnOk result (map line_view out.new.items ≡ map line_view out.old.items ++ labels_kept (line_view line) (line_view line).names) }
{
    let ListingLine {
        names,
        mut text,
        front,
        ..
    } = line;
    if names.is_empty() {
        return Ok(());
    }
    text.truncate(front);
    out.push(line_of_labels(names, text)?)?;
    Ok(())
}

/// Adds the lines of a redirected branch: one for its labels, if it has any, and its own.
fn emit_aimed(
    alloc: Global,
    out: &mut Vec<ListingLine>,
    line: ListingLine,
    name: &[u8],
) -> Result<(), Memory>
    requires { is_op (line_view line).statement ≡ true }
    ensures { OnOk result (map line_view out.new.items ≡ map line_view out.old.items ++ line_now false (Some name.now) (line_view line)) }
{
    if let Statement::Instruction { instr, .. } = &line.statement {
        let branch = branch_line(alloc, instr, name)?;
        emit_labels(out, line)?;
        out.push(branch)?;
    }
    Ok(())
}

/// Adds the lines that an instruction's line is now.
fn emit_op(
    alloc: Global,
    out: &mut Vec<ListingLine>,
    line: ListingLine,
    is_gone: bool,
    aim: &Option<Vec<u8>>,
) -> Result<(), Memory>
    requires { is_op (line_view line).statement ≡ true }
    ensures { OnOk result (map line_view out.new.items ≡ map line_view out.old.items ++ line_now is_gone (option_map (λ name. name.items) aim.now) (line_view line)) }
{
    if is_gone {
        emit_labels(out, line)?;
        return Ok(());
    }
    match aim {
        Some(name) => emit_aimed(alloc, out, line, name),
        None => {
            out.push(line)?;
            Ok(())
        }
    }
}

/// Changes an instruction's line in place to what it is now, if it stays one line. Returns whether it does.
fn change_one(
    alloc: Global,
    line: &mut ListingLine,
    is_gone: bool,
    aim: &Option<Vec<u8>>,
) -> Result<bool, Memory>
    requires { is_op (line_view line.old).statement ≡ true }
    ensures one { IfOk result (λ stays. stays ≡ true → line_view line.new ∷ [] ≡ line_now is_gone (option_map (λ name. name.items) aim.now) (line_view line.old)) }
    ensures other { IfOk result (λ stays. stays ≡ false → line_view line.new ≡ line_view line.old) }
{
    if is_gone {
        return Ok(false);
    }
    let Some(name) = aim else {
        return Ok(true);
    };
    if !line.names.is_empty() {
        return Ok(false);
    }
    if let Statement::Instruction { instr, .. } = &line.statement {
        *line = branch_line(alloc, instr, name)?;
    }
    Ok(true)
}

/// Changes the lines in place to what they are now, up to the first that doesn't stay one line. Returns how many lines and places come before that.
fn change_standing(
    alloc: Global,
    lines: &mut Vec<ListingLine>,
    kept: &KeptPlaces,
    aims: &[Option<Vec<u8>>],
) -> Result<Passed, Memory>
    requires gone { length kept.now ≡ length (places_of (map line_view lines.old.items)) }
    requires aims { length aims.now ≡ length (places_of (map line_view lines.old.items)) }
    ensures within { IfOk result (λ p. p.lines ≤ length lines.new.items) }
    ensures places { IfOk result (λ p. p.places + length (places_of (drop p.lines (map line_view lines.new.items))) ≡ length kept.now) }
    ensures lines { IfOk result (λ p. take p.lines (map line_view lines.new.items) ++ now_of (drop p.places kept.now) (drop p.places (names_of aims.now)) (drop p.lines (map line_view lines.new.items)) ≡ now_of kept.now (names_of aims.now) (map line_view lines.old.items)) }
{
    // For the prover alone: the type of the answer says that the places are fewer than 2^32.
    let _count = kept.len();
    let mut place: u32 = 0;
    for n in 0..lines.len() {
        let places = lines[n].statement.places() as u32;
        if is_op(&lines[n]) {
            let is_gone = kept.is_gone(place);
            if !change_one(alloc, &mut lines[n], is_gone, &aims[place as usize])? {
                return Ok(Passed {
                    lines: n,
                    places: place,
                });
            }
        }
        place += places;
    }
    Ok(Passed {
        lines: lines.len(),
        places: place,
    })
}

/// The lines now, where those that were passed are changed already.
fn emit_behind(
    alloc: Global,
    lines: Vec<ListingLine>,
    passed: Passed,
    kept: &KeptPlaces,
    aims: &[Option<Vec<u8>>],
) -> Result<Vec<ListingLine>, Memory>
    requires within { passed.lines ≤ length lines.items }
    requires places { passed.places + length (places_of (drop passed.lines (map line_view lines.items))) ≡ length kept.now }
    requires aims { length aims.now ≡ length kept.now }
    ensures { IfOk result (λ out. map line_view out.items ≡ take passed.lines (map line_view lines.items) ++ now_of (drop passed.places kept.now) (drop passed.places (names_of aims.now)) (drop passed.lines (map line_view lines.items))) }
{
    // For the prover alone: the type of the answer says that the places are fewer than 2^32.
    let _count = kept.len();
    let mut out = Vec::with_capacity(alloc, lines.len())?;
    let mut standing = passed.lines;
    let mut place = passed.places;
    for line in lines {
        if standing > 0 {
            standing -= 1;
            out.push(line)?;
            continue;
        }
        let places = line.statement.places() as u32;
        if is_op(&line) {
            let is_gone = kept.is_gone(place);
            emit_op(alloc, &mut out, line, is_gone, &aims[place as usize])?;
        } else {
            out.push(line)?;
        }
        place += places;
    }
    Ok(out)
}

/// The lines that the given lines are now.
pub(crate) fn emit(
    alloc: Global,
    mut lines: Vec<ListingLine>,
    kept: &KeptPlaces,
    aims: &[Option<Vec<u8>>],
) -> Result<Vec<ListingLine>, Memory>
    requires gone { length kept.now ≡ length (places_of (map line_view lines.items)) }
    requires aims { length aims.now ≡ length (places_of (map line_view lines.items)) }
    ensures { IfOk result (λ out. map line_view out.items ≡ now_of kept.now (names_of aims.now) (map line_view lines.items)) }
{
    let passed = change_standing(alloc, &mut lines, kept, aims)?;
    if passed.lines == lines.len() {
        return Ok(lines);
    }
    emit_behind(alloc, lines, passed, kept, aims)
}
