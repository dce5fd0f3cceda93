//! By multiples of which number blocks can move together with no padding and no literal changed, and which mentions may come out of reach by coming nearer.
ghost use Rattle.std.specs.Prelude.{◌≡◌, ◌<◌, ◌≤◌, ℕ, true, length, map, drop, slice_get, Some, Contains, IfOk};
ghost use Rattle.kept_layout.specs.declared.block.Block.{Block as OneBlock};
ghost use Rattle.kept_layout.specs.Blocks.{is_literal as mentions_literal, is_loose as comes_loose, literal_last as last_of_literal, footprints_of, Divides, IsAlignment, IsAlignmentOf, Footprint};
ghost use Rattle.kept_layout.specs.Moves.{unaligned};

use crate::block::{Block, Head, NameLocation};
use listing_parser::Memory;
use std::alloc::Global;
use thumb_instr::Instr;

// ---- alignments ----

/// A common multiple of two numbers: the greater one if the other divides it, and else 0.
fn common(alignment: u32, size: u32) -> u32
    ensures alignment { Divides alignment result }
    ensures size { Divides size result }
{
    if size != 0 && alignment % size == 0 {
        alignment
    } else if alignment != 0 && size % alignment == 0 {
        size
    } else {
        0
    }
}

/// A common multiple of `alignment`, that of the blocks after this one, and of the size to which this block aligns.
fn padded_alignment(head: &Head, alignment: u32) -> u32
    ensures behind { Divides alignment result }
    ensures own { IsAlignmentOf result head.now }
{
    match head {
        Head::Pads { size, .. } => common(alignment, *size),
        _ => alignment,
    }
}

/// The alignment of a block, from that of the blocks after it and from whether a literal or a literal's label is at or after it.
fn alignment_of(head: &Head, before_literal: bool, alignment: u32) -> u32
    ensures behind { Divides alignment result }
    ensures own { IsAlignmentOf result head.now }
    ensures literals { before_literal ≡ true → Divides 4 result }
{
    let padded = padded_alignment(head, alignment);
    if before_literal {
        common(padded, 4)
    } else {
        padded
    }
}

/// Whether an instruction is a literal load or `adr`.
pub(crate) fn is_literal(instr: &Instr) -> bool
    ensures { result ≡ mentions_literal instr.now }
{
    match instr {
        Instr::Literal { .. } | Instr::Address { .. } => true,
        _ => false,
    }
}

/// The later of a block and of its literal's label, if it begins with such a literal load, or else 0: up to there a move must be by a multiple of 4.
fn literal_last(number: usize, head: &Head) -> usize
    ensures { result ≡ last_of_literal number head.now }
{
    match head {
        Head::Aims(aim) => match aim.to {
            Some(NameLocation::Block(to)) if is_literal(&aim.instr) => number.max(to),
            _ => 0,
        }
        _ => 0,
    }
}

/// The last block that begins with a literal load or with a literal's label, or 0 where there is none.
fn last_literal(blocks: &[Block]) -> usize
    ensures { (j : ℕ) (s : OneBlock) → slice_get blocks.now j ≡ Some s → last_of_literal j s.head ≤ result }
{
    let mut last: usize = 0;
    for number in 0..blocks.len() {
        last = last.max(literal_last(number, &blocks[number].head));
    }
    last
}

/// Notes the alignments of blocks, from the last one to the first.
pub(crate) fn note_alignments(blocks: &mut Vec<Block>)
    ensures same { map unaligned blocks.new.items ≡ map unaligned blocks.old.items }
    ensures alignments { (j : ℕ) (s : OneBlock) → slice_get blocks.new.items j ≡ Some s → IsAlignment s.alignment (drop j (footprints_of blocks.old.items)) }
    ensures literals { (i j : ℕ) (s : Footprint) (d : OneBlock) → slice_get (footprints_of blocks.old.items) i ≡ Some s → slice_get blocks.new.items j ≡ Some d → j ≤ last_of_literal i s.head → Divides 4 d.alignment }
{
    let last = last_literal(blocks);
    let mut alignment = 1;
    let mut number = blocks.len();
    while number > 0 {
        number -= 1;
        alignment = alignment_of(&blocks[number].head, number <= last, alignment);
        blocks[number].alignment = alignment;
    }
}

// ---- loose mentions ----

/// Kinds of loose mentions, which may come out of reach by coming nearer: of a label by a literal load at or after it, and of an address that is set.
#[derive(Clone, Copy)]
pub enum Loose {
    Label,
    Address,
}

/// Whether a block begins with a loose mention of this kind.
fn is_loose(loose: Loose, number: usize, head: &Head) -> bool
    ensures { result ≡ comes_loose loose number head.now }
{
    match head {
        Head::Aims(aim) => match (loose, aim.to) {
            (Loose::Label, Some(NameLocation::Block(to))) => is_literal(&aim.instr) && to <= number,
            (Loose::Address, Some(NameLocation::Address(_))) => true,
            _ => false,
        }
        _ => false,
    }
}

/// The numbers of the blocks that begin with a loose mention of this kind.
pub(crate) fn find_loose(alloc: Global, blocks: &[Block], of: Loose) -> Result<Vec<usize>, Memory>
    ensures all { IfOk result (λ v. (j : ℕ) (s : OneBlock) → slice_get blocks.now j ≡ Some s → comes_loose of j s.head ≡ true → Contains v.items j) }
    ensures within { IfOk result (λ v. (j : ℕ) → Contains v.items j → j < length blocks.now) }
{
    let mut loose = Vec::new(alloc);
    for number in 0..blocks.len() {
        if !is_loose(of, number, &blocks[number].head) {
            continue;
        }
        loose.push(number)?;
    }
    Ok(loose)
}
