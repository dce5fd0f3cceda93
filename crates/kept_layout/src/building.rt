//! Cutting the lines of a listing into blocks, and laying those out.
ghost use Rattle.std.specs.Prelude.{◌≡◌, ◌+◌, ◌<◌, ◌≤◌, ◌^◌, ◌++◌, [], ◌∷◌, length, map, IfOk, OnOk};
ghost use Rattle.thumb_model.specs.Listing.{places_in};
ghost use Rattle.listing_parser.specs.Views.{line_view, statement_view};
ghost use Rattle.kept_layout.specs.Blocks.{end_from, footprint_of, footprints_of, starts_from};
ghost use Rattle.kept_layout.specs.Kept.{is_fixed as stays_fixed, begins as begins_block, bytes_in as bytes_besides, head_of as heads_of};
ghost use Rattle.kept_layout.specs.Cutting.{number_at as number_of, numbers_from, lies_at, part_footprints, mentioned as mentions_block, AreMet, KnowCallers, AreCallers};

use crate::block::{Aim, Block, Head, NameLocation, behind};
use label_layout::{CODE_END, cleared, instr_size};
use listing_parser::{Listing, ListingLine, Memory, Statement};
use std::alloc::Global;

// ---- cutting ----

/// Whether a statement takes the same bytes wherever it lies, and mentions nothing.
fn is_fixed(statement: &Statement) -> bool
    ensures { result ≡ stays_fixed (statement_view statement.now) }
{
    match statement {
        Statement::Instruction { mention, .. } => mention.is_none(),
        Statement::Aligns { .. } => false,
        _ => true,
    }
}

/// Whether a line begins a block.
fn begins(line: &ListingLine) -> bool
    ensures { result ≡ begins_block (line_view line.now) }
{
    !line.names.is_empty() || !is_fixed(&line.statement)
}

/// The number of the block in which a line stands, given that of the line before.
fn number_at(before: usize, line: &ListingLine) -> usize
    requires { before < 2 ^ 63 }
    ensures { result ≡ number_of before (line_view line.now) }
{
    if begins(line) { before + 1 } else { before }
}

/// For each line, the number of its block. Block 0 has the lines before the first line that begins a block.
fn number_lines(alloc: Global, lines: &[ListingLine]) -> Result<Vec<usize>, Memory>
    ensures { IfOk result (λ numbers. numbers.items ≡ numbers_from 0 (map line_view lines.now)) }
{
    let mut numbers = Vec::with_capacity(alloc, lines.len())?;
    let mut number = 0;
    for line in lines {
        number = number_at(number, line);
        numbers.push(number)?;
    }
    Ok(numbers)
}

// ---- one block ----

/// Where a name lies: the block that begins with its label, or the address that is set for it. The numbers are those of the listing's lines.
fn find_target(listing: &Listing, numbers: &[usize], name: &[u8]) -> Option<NameLocation>
    requires { numbers.now ≡ numbers_from 0 listing.now }
    ensures { result ≡ lies_at listing.now name.now }
{
    match listing.label_line(name) {
        Some(line) => Some(NameLocation::Block(numbers[line])),
        None => match cleared(listing.set_address(name)) {
            Some(address) => Some(NameLocation::Address(address)),
            None => None,
        }
    }
}

/// What a block begins with whose first line has the statement. The numbers are those of the listing's lines.
fn head_of(listing: &Listing, numbers: &[usize], statement: &Statement) -> Head
    requires { numbers.now ≡ numbers_from 0 listing.now }
    ensures { result ≡ heads_of (lies_at listing.now) (statement_view statement.now) }
{
    match statement {
        Statement::Instruction {
            instr,
            mention: Some(mention),
        } => Head::Aims(Aim {
            instr: *instr,
            to: find_target(listing, numbers, &mention.name),
            plus: mention.plus,
        }),
        Statement::Aligns { size, most } => Head::Pads {
            size: *size,
            most: *most,
        },
        _ => Head::Plain,
    }
}

/// How many bytes a statement takes, without a padding. `Memory` where they are more than the Code region has.
fn bytes_in(statement: &Statement) -> Result<u32, Memory>
    ensures value { IfOk result (λ bytes. bytes ≡ bytes_besides (statement_view statement.now)) }
    ensures in_code { IfOk result (λ bytes. bytes ≤ 2 ^ 29) }
{
    match statement {
        Statement::Instruction { instr, .. } => Ok(instr_size(instr)),
        Statement::Words(values) => {
            if values.len() <= (CODE_END / 4) as usize {
                Ok(4 * values.len() as u32)
            } else {
                Err(Memory)
            }
        }
        _ => Ok(0),
    }
}

/// The block that a line begins. The numbers are those of the listing's lines.
fn open(
    alloc: Global,
    listing: &Listing,
    numbers: &[usize],
    line: &ListingLine,
    at: u32,
) -> Result<Block, Memory>
    requires { numbers.now ≡ numbers_from 0 listing.now }
    ensures at { IfOk result (λ s. s.at ≡ at) }
    ensures head { IfOk result (λ s. s.head ≡ heads_of (lies_at listing.now) (statement_view line.now.statement)) }
    ensures bytes { IfOk result (λ s. s.bytes ≡ bytes_besides (statement_view line.now.statement)) }
    ensures in_code { IfOk result (λ s. s.bytes ≤ 2 ^ 29) }
    ensures places { IfOk result (λ s. s.places ≡ length (places_in (statement_view line.now.statement))) }
    ensures callers { IfOk result (λ s. s.callers.items ≡ []) }
{
    Ok(Block {
        at,
        head: head_of(listing, numbers, &line.statement),
        bytes: bytes_in(&line.statement)?,
        places: line.statement.places(),
        callers: Vec::new(alloc),
        alignment: 0,
    })
}

/// Adds a line to a block, which has no more places than bytes.
fn add_line(block: &mut Block, line: &ListingLine) -> Result<(), Memory>
    requires in_code { block.old.bytes ≤ 2 ^ 29 }
    requires few { block.old.places ≤ block.old.bytes }
    ensures at { block.new.at ≡ block.old.at }
    ensures head { block.new.head ≡ block.old.head }
    ensures callers { block.new.callers ≡ block.old.callers }
    ensures bytes { OnOk result (block.new.bytes ≡ block.old.bytes + bytes_besides (statement_view line.now.statement)) }
    ensures in_code { OnOk result (block.new.bytes ≤ 2 ^ 29) }
    ensures places { OnOk result (block.new.places ≡ block.old.places + length (places_in (statement_view line.now.statement))) }
{
    let bytes = bytes_in(&line.statement)?;
    if bytes > CODE_END - block.bytes {
        return Err(Memory);
    }
    block.bytes += bytes;
    block.places += line.statement.places();
    Ok(())
}

// ---- all of them ----

/// The blocks of a listing's lines, laid out from a base. Their callers and alignments aren't noted yet.
pub(crate) fn lay(alloc: Global, listing: &Listing, base: u32) -> Result<Vec<Block>, Memory>
    ensures footprints { IfOk result (λ v. footprints_of v.items ≡ part_footprints listing.now) }
    ensures starts { IfOk result (λ v. map (λ s. s.at) v.items ≡ starts_from base (part_footprints listing.now)) }
    ensures in_code { IfOk result (λ v. end_from base (part_footprints listing.now) ≤ 2 ^ 29) }
    ensures callers { IfOk result (λ v. AreCallers v.items) }
{
    if base > CODE_END {
        return Err(Memory);
    }
    let numbers = number_lines(alloc, listing.lines())?;
    let mut blocks = Vec::new(alloc);
    let mut last = Block {
        at: base,
        head: Head::Plain,
        bytes: 0,
        places: 0,
        callers: Vec::new(alloc),
        alignment: 0,
    };
    for line in listing.lines() {
        if !begins(line) {
            add_line(&mut last, line)?;
            continue;
        }
        let at = behind(last.at, &last.head, last.bytes)?;
        blocks.push(last)?;
        last = open(alloc, listing, &numbers, line, at)?;
    }
    behind(last.at, &last.head, last.bytes)?;
    blocks.push(last)?;
    Ok(blocks)
}

// ---- callers ----

/// The block whose label is mentioned by what a block begins with.
fn mentioned(head: Head) -> Option<usize>
    ensures { result ≡ mentions_block head }
{
    match head {
        Head::Aims(aim) => match aim.to {
            Some(NameLocation::Block(number)) => Some(number),
            _ => None,
        }
        _ => None,
    }
}

/// Adds a number to the callers of a block.
fn add_caller(block: &mut Block, number: usize) -> Result<(), Memory>
    ensures at { block.new.at ≡ block.old.at }
    ensures footprint { footprint_of block.new ≡ footprint_of block.old }
    ensures callers { OnOk result (block.new.callers.items ≡ block.old.callers.items ++ number ∷ []) }
{
    block.callers.push(number)?;
    Ok(())
}

/// Notes for each block which blocks mention its label.
pub(crate) fn note_callers(blocks: &mut Vec<Block>) -> Result<(), Memory>
    requires met { AreMet (footprints_of blocks.old.items) }
    requires callers { AreCallers blocks.old.items }
    ensures footprints { OnOk result (footprints_of blocks.new.items ≡ footprints_of blocks.old.items) }
    ensures starts { OnOk result (map (λ s. s.at) blocks.new.items ≡ map (λ s. s.at) blocks.old.items) }
    ensures known { OnOk result (KnowCallers (length blocks.new.items) blocks.new.items) }
    ensures callers { OnOk result (AreCallers blocks.new.items) }
{
    for number in 0..blocks.len() {
        let Some(met) = mentioned(blocks[number].head) else {
            continue;
        };
        add_caller(&mut blocks[met], number)?;
    }
    Ok(())
}
