//! Calm blocks: where they move by an even number of bytes together with what is around them, no padding and no reach changes, so none is looked at.
ghost use Rattle.std.specs.Prelude.{◌≡◌, ◌<◌, ℕ, true, false, length, slice_get, IfOk, Some, Contains};
ghost use Rattle.kept_layout.specs.declared.block.Block.{Block as OneBlock};
ghost use Rattle.kept_layout.specs.Blocks.{begins_literal as has_literal, is_calm as stays_calm, footprints_of, AreWalls, IsCalm};
ghost use Rattle.kept_layout.specs.Cutting.{AreCallers, KnowCallers};
ghost use Rattle.kept_layout.specs.Moves.{wall_of};

use crate::alignments::is_literal;
use crate::block::{Block, Head, NameLocation};
use crate::kept::KeptLayout;
use listing_parser::Memory;
use std::alloc::Global;

/// Whether what a block begins with is calm: where it and what it mentions move by one even number of bytes, neither its padding nor its reach changes.
fn is_calm_head(head: &Head) -> bool
    ensures { result ≡ stays_calm head.now }
{
    match head {
        Head::Plain => true,
        Head::Pads { size, .. } => *size == 1 || *size == 2,
        Head::Aims(aim) => match aim.to {
            Some(NameLocation::Address(_)) => false,
            _ => !is_literal(&aim.instr),
        }
    }
}

/// Whether a block begins with a literal's instruction.
fn begins_literal(head: &Head) -> bool
    ensures { result ≡ has_literal head.now }
{
    match head {
        Head::Aims(aim) => is_literal(&aim.instr),
        _ => false,
    }
}

/// Whether the block of this number begins with a literal's instruction.
fn is_literal_at(blocks: &[Block], number: usize) -> bool
    requires { number < length blocks.now }
    ensures { (s : OneBlock) → slice_get blocks.now number ≡ Some s → result ≡ has_literal s.head }
{
    begins_literal(&blocks[number].head)
}

/// Whether none of these blocks begins with a literal's instruction.
fn are_no_literals(blocks: &[Block], numbers: &[usize]) -> bool
    requires { (j : ℕ) → Contains numbers.now j → j < length blocks.now }
    ensures { result ≡ true → (j : ℕ) (s : OneBlock) → Contains numbers.now j → slice_get blocks.now j ≡ Some s → has_literal s.head ≡ false }
{
    for number in numbers {
        if is_literal_at(blocks, *number) {
            return false;
        }
    }
    true
}

/// Whether a block is calm: what it begins with is, and no literal mentions its label.
fn is_calm(blocks: &[Block], number: usize) -> bool
    requires within { number < length blocks.now }
    requires known { KnowCallers (length blocks.now) blocks.now }
    requires callers { AreCallers blocks.now }
    ensures { result ≡ true → IsCalm (footprints_of blocks.now) number }
{
    let block = &blocks[number];
    is_calm_head(&block.head) && are_no_literals(blocks, &block.callers)
}

/// So many numbers, from 0 on.
fn numbers(alloc: Global, count: usize) -> Result<Vec<usize>, Memory>
    ensures count { IfOk result (λ v. length v.items ≡ count) }
    ensures each { IfOk result (λ v. (j n : ℕ) → slice_get v.items j ≡ Some n → n ≡ j) }
{
    let mut numbers = Vec::with_capacity(alloc, count)?;
    for number in 0..count {
        numbers.push(number)?;
    }
    Ok(numbers)
}

/// For each block its wall: the first block from it on that isn't calm, or the last block.
pub(crate) fn find_walls(alloc: Global, blocks: &[Block]) -> Result<Vec<usize>, Memory>
    requires known { KnowCallers (length blocks.now) blocks.now }
    requires callers { AreCallers blocks.now }
    ensures { IfOk result (λ v. AreWalls v.items (footprints_of blocks.now)) }
{
    let mut walls = numbers(alloc, blocks.len())?;
    let mut behind = blocks.len();
    while behind > 1 {
        behind -= 1;
        if !is_calm(blocks, behind - 1) {
            continue;
        }
        walls[behind - 1] = walls[behind];
    }
    Ok(walls)
}

impl KeptLayout {
    /// The wall of the block after the current one, up to which all are calm; one past the last block where none follows.
    pub(crate) fn wall(&self) -> usize
        requires { self.now.here < length self.now.blocks.items }
        ensures { result ≡ wall_of self.now }
    {
        let first = self.here + 1;
        if first < self.walls.len() {
            self.walls[first]
        } else {
            first
        }
    }
}
