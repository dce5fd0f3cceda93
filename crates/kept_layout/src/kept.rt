//! The layout of lines that are being rewritten. A replacement looks only at what depends on where lines lie, not at each line after it.
ghost use Rattle.std.specs.Prelude.{◌≡◌, ◌-◌, ◌*◌, ◌≤◌, ◌^◌, length};

use crate::alignments::{Loose, find_loose, note_alignments};
use crate::block::Block;
use crate::building::{lay, note_callers};
use crate::calm::find_walls;
use crate::groups::find_rooms;
use crate::lag::Lag;
use crate::shrinking::Move;
use listing_parser::{Listing, Memory};
use std::alloc::Global;
use thumb_instr::Instr;

/// The layout of lines from a base, in which windows give way to at most as many instructions: blocks of lines, with what depends on where they lie.
#[derive(Drop)]
pub struct KeptLayout {
    pub base: u32,
    pub blocks: Vec<Block>,
    /// The number of the current block, at which the layout stands.
    pub here: usize,
    /// How many places come before the current block.
    pub first: usize,
    /// How many places each full group of 128 blocks has.
    pub rooms: Vec<usize>,
    /// For each block the first one from it on that isn't calm, or the last one: up to it no block is looked at where all move by an even number of bytes.
    pub walls: Vec<usize>,
    /// How many bytes blocks lie before their noted addresses, since they moved together.
    pub lag: Lag,
    /// The numbers of the blocks that begin with a mention of a label which may come out of reach by coming nearer.
    pub loose: Vec<usize>,
    /// The numbers of the blocks that begin with a mention of an address that is set.
    pub absolute: Vec<usize>,
    /// By how many bytes the mentions of set addresses after the block `slack_from` may all still move towards the base and stay within reach.
    pub slack: u32,
    pub slack_from: usize,
}

/// How many bytes fewer instructions take than a window, where each takes two.
fn bytes_gone(window: &[Instr], new: &[Instr]) -> u32
    requires fewer { length new.now ≤ length window.now }
    requires few { 2 * (length window.now - length new.now) ≤ 2 ^ 29 }
    ensures { result ≡ 2 * (length window.now - length new.now) }
{
    2 * (window.len() - new.len()) as u32
}

impl KeptLayout {
    ghost use Rattle.std.specs.Prelude.{◌≡◌, ◌<◌, ◌≤◌, ◌↔◌, true, ℕ, List, is_some, length, IfOk, IfSome, OnOk};
    ghost use Rattle.std.specs.List.{list_all};
    ghost use Rattle.thumb_instr.specs.Window.{is_in_window};
    ghost use Rattle.thumb_model.specs.Layout.{Layable};
    ghost use Rattle.thumb_model.specs.Listing.{ListingLine};
    ghost use Rattle.thumb_model.specs.Replaced.{replaced_lines};
    ghost use Rattle.listing_parser.specs.Parsing.{own_line};
    ghost use Rattle.thumb_model.specs.Replaced.{IsWindow};
    ghost use Rattle.kept_layout.specs.Kept.{Lays, IsNear, LeavesLayable, StandsAt};
    ghost use Rattle.kept_layout.specs.Moves.{IsMoved};

    /// The layout of a listing that can be laid out from the base. Its current block is that of the first place.
    pub fn of(alloc: Global, listing: &Listing, base: u32) -> Result<KeptLayout, Memory>
        requires { Layable base listing.now }
        ensures lays { IfOk result (λ k. Lays k listing.now) }
        ensures base { IfOk result (λ k. k.base ≡ base) }
        ensures near { IfOk result (λ k. IsNear k 0) }
    {
        let mut blocks = lay(alloc, listing, base)?;
        note_callers(&mut blocks)?;
        let walls = find_walls(alloc, &blocks)?;
        note_alignments(&mut blocks);
        let loose = find_loose(alloc, &blocks, Loose::Label)?;
        let absolute = find_loose(alloc, &blocks, Loose::Address)?;
        let rooms = find_rooms(alloc, &blocks)?;
        let mut kept = KeptLayout {
            base,
            blocks,
            here: 0,
            first: 0,
            rooms,
            walls,
            lag: Lag {
                border: 0,
                shift: 0,
                from: 0,
                until: 0,
                gap: 0,
            },
            loose,
            absolute,
            slack: 0,
            slack_from: 0,
        };
        kept.go_to(0);
        Ok(kept)
    }

    /// How blocks move if a window, which begins in the current block, gives way to at most as many instructions. None if the lines can't be laid out then.
    pub fn may_give_way(
        &self,
        alloc: Global,
        window: &[Instr],
        new: &[Instr],
    ) -> Result<Option<Move>, Memory>
        requires stands { StandsAt self.now window.now }
        requires some { 0 < length window.now }
        requires fewer { length new.now ≤ length window.now }
        requires in_window { list_all is_in_window new.now ≡ true }
        ensures layable { IfOk result (λ o. (lines : List ListingLine) (place : ℕ) → Lays self.now lines → IsNear self.now place → IsWindow lines place window.now → (is_some o ≡ true) ↔ Layable self.now.base (replaced_lines own_line place (length window.now) new.now lines)) }
        ensures moved { IfOk result (λ o. IfSome o (λ m. IsMoved self.now (2 * (length window.now - length new.now)) m.at.items m.by)) }
    {
        let bytes = bytes_gone(window, new);
        self.move_within_reach(alloc, bytes)
    }

    /// Lets a window, which begins in the current block, give way to at most as many instructions. `moved` is what `may_give_way` answered for these.
    pub fn give_way(&mut self, window: &[Instr], new: &[Instr], moved: &Move) -> Result<(), Memory>
        requires leaves { LeavesLayable self.old window.now new.now }
        requires some { 0 < length window.now }
        requires fewer { length new.now ≤ length window.now }
        requires in_window { list_all is_in_window new.now ≡ true }
        requires moved { IsMoved self.old (2 * (length window.now - length new.now)) moved.now.at.items moved.now.by }
        ensures lays { OnOk result ((lines : List ListingLine) (place : ℕ) → Lays self.old lines → IsNear self.old place → IsWindow lines place window.now → Lays self.new (replaced_lines own_line place (length window.now) new.now lines)) }
        ensures base { OnOk result (self.new.base ≡ self.old.base) }
    {
        let bytes = bytes_gone(window, new);
        self.shrink(moved, bytes, window.len() - new.len())
    }
}
