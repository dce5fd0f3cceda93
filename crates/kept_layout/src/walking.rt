//! Finds how blocks move if the current one takes fewer bytes: a walk up to where all the rest moves by one distance that no padding and no literal notices.
//! A mention that comes out of reach ends the walk as soon as the new addresses of both of its ends are known.
ghost use Rattle.std.specs.Prelude.{◌≡◌, suc, ◌+◌, ◌-◌, ◌<◌, ◌≤◌, ◌↔◌, ℕ, true, length, slice_get, is_some, IfOk, IfSome, IfNone, Some, Contains, false};
ghost use Rattle.kept_layout.specs.declared.block.Block.{Block as OneBlock};
ghost use Rattle.kept_layout.specs.declared.block.NameLocation.TheVariants.{Block as AtBlock};
ghost use Rattle.kept_layout.specs.Blocks.{address_of, later_end, lessen, footprints_of, AllReach, AreWide, Divides, Footprint};
ghost use Rattle.kept_layout.specs.Kept.{IsLaid};
ghost use Rattle.kept_layout.specs.Moves.{calm_starts, has_slack, is_known, moved_starts, news, starts_of, wall_of, AreFar, AreKnownRight, IsLookedAt, IsMove, IsMoved, IsRight, IsRightIf, IsWalked};

use crate::block::{Head, NameLocation, behind};
use crate::kept::KeptLayout;
use crate::shrinking::Move;
use label_layout::aim_fault;
use listing_parser::Memory;
use std::alloc::Global;

/// Memory for so many new addresses is asked for at once: seldom do more blocks move by themselves.
const FEW: usize = 64;

/// No mention of a label but a call's reaches further than so many bytes.
const REACH: u32 = 2052;

/// In code of so many bytes each call reaches each label.
const SMALL: u32 = 16_000_000;

/// Whether the new address is the old one less a multiple of the alignment.
fn is_together(new: u32, old: u32, alignment: u32) -> bool
    ensures { result ≡ true → (new ≤ old) × Divides alignment (old - new) }
{
    new <= old && (new == old || (alignment != 0 && (old - new) % alignment == 0))
}

/// The later of a block and of the block whose label it mentions, if it mentions one.
fn later_end(number: usize, head: &Head) -> usize
    ensures { result ≡ later_end number head.now }
{
    match head {
        Head::Aims(aim) => match aim.to {
            Some(NameLocation::Block(to)) => number.max(to),
            _ => number,
        }
        _ => number,
    }
}

impl KeptLayout {
    /// The address of a target after the move.
    fn new_target(&self, moved: &Move, bytes: u32, target: Option<NameLocation>) -> Option<u32>
        requires laid { IsLaid self.now }
        requires is { IsMove self.now (news self.now bytes moved.now.at.items) moved.now.by }
        requires within { (t : ℕ) → target ≡ Some (AtBlock t) → t < length self.now.blocks.items }
        ensures { result ≡ address_of (moved_starts self.now (news self.now bytes moved.now.at.items) moved.now.by) target }
    {
        match target {
            None => None,
            Some(NameLocation::Block(number)) => Some(self.new_address(moved, bytes, number)),
            Some(NameLocation::Address(address)) => Some(address),
        }
    }

    /// Whether what a block mentions is within reach after the move.
    fn is_right(&self, moved: &Move, bytes: u32, number: usize) -> bool
        requires laid { IsLaid self.now }
        requires is { IsMove self.now (news self.now bytes moved.now.at.items) moved.now.by }
        requires within { number < length self.now.blocks.items }
        ensures { (result ≡ true) ↔ IsRight (moved_starts self.now (news self.now bytes moved.now.at.items) moved.now.by) self.now.blocks.items number }
    {
        match self.blocks[number].head {
            Head::Aims(aim) => {
                let at = self.new_address(moved, bytes, number);
                let to = self.new_target(moved, bytes, aim.to);
                aim_fault(at, &aim.instr, to, aim.plus).is_none()
            }
            _ => true,
        }
    }

    /// Whether a block and the one whose label it mentions both lie before the blocks that move together.
    fn is_known(&self, moved: &Move, number: usize) -> bool
        requires laid { IsLaid self.now }
        requires within { number < length self.now.blocks.items }
        ensures { (bytes : ℕ) (s : OneBlock) → slice_get self.now.blocks.items number ≡ Some s → result ≡ is_known self.now (news self.now bytes moved.now.at.items) number s.head }
    {
        later_end(number, &self.blocks[number].head) < self.wall() + moved.at.len()
    }

    /// Whether what a block mentions is within reach after the move. It is looked at only where `is_known` of the block is `known`.
    fn is_right_if(&self, known: bool, moved: &Move, bytes: u32, number: usize) -> bool
        requires laid { IsLaid self.now }
        requires is { IsMove self.now (news self.now bytes moved.now.at.items) moved.now.by }
        requires within { number < length self.now.blocks.items }
        ensures { (result ≡ true) ↔ IsRightIf known self.now (news self.now bytes moved.now.at.items) moved.now.by number }
    {
        if self.is_known(moved, number) == known {
            self.is_right(moved, bytes, number)
        } else {
            true
        }
    }

    /// The same of all of these blocks.
    fn are_right_if(&self, known: bool, moved: &Move, bytes: u32, numbers: &[usize]) -> bool
        requires laid { IsLaid self.now }
        requires is { IsMove self.now (news self.now bytes moved.now.at.items) moved.now.by }
        requires within { (j : ℕ) → Contains numbers.now j → j < length self.now.blocks.items }
        ensures all { result ≡ true → (j : ℕ) → Contains numbers.now j → IsRightIf known self.now (news self.now bytes moved.now.at.items) moved.now.by j }
        ensures none { ((j : ℕ) → IsRightIf known self.now (news self.now bytes moved.now.at.items) moved.now.by j) → result ≡ true }
    {
        for number in numbers {
            if !self.is_right_if(known, moved, bytes, *number) {
                return false;
            }
        }
        true
    }

    /// The same of a block and of all blocks that mention its label.
    fn is_met(&self, known: bool, moved: &Move, bytes: u32, number: usize) -> bool
        requires laid { IsLaid self.now }
        requires is { IsMove self.now (news self.now bytes moved.now.at.items) moved.now.by }
        requires within { number < length self.now.blocks.items }
        ensures own { result ≡ true → IsRightIf known self.now (news self.now bytes moved.now.at.items) moved.now.by number }
        ensures callers { result ≡ true → (j : ℕ) (d : OneBlock) → slice_get self.now.blocks.items number ≡ Some d → Contains d.callers.items j → IsRightIf known self.now (news self.now bytes moved.now.at.items) moved.now.by j }
        ensures none { ((j : ℕ) → IsRightIf known self.now (news self.now bytes moved.now.at.items) moved.now.by j) → result ≡ true }
    {
        self.is_right_if(known, moved, bytes, number)
            && self.are_right_if(known, moved, bytes, &self.blocks[number].callers)
    }

    // ---- the walk ----

    /// The address of the wall after the move, where the calm blocks before it lie earlier by the bytes that go.
    fn wall_address(&self, wall: usize, bytes: u32) -> Result<u32, Memory>
        requires laid { IsLaid self.now }
        requires is { wall ≡ wall_of self.now }
        requires even { Divides 2 bytes }
        requires few { (s : Footprint) → slice_get (footprints_of self.now.blocks.items) self.now.here ≡ Some s → bytes ≤ s.bytes }
        ensures { IfOk result (λ at. IsWalked self.now bytes (calm_starts self.now bytes) at wall) }
    {
        if wall < self.blocks.len() {
            let start = self.address(wall);
            return Ok(start - bytes);
        }
        let here = &self.blocks[self.here];
        let at = self.address(self.here);
        behind(at, &here.head, here.bytes - bytes)
    }

    /// How blocks move if the current one takes so many bytes fewer. None where a mention is found to come out of reach on the walk.
    fn walk(&self, alloc: Global, bytes: u32) -> Result<Option<Move>, Memory>
        requires laid { IsLaid self.now }
        requires wide { AreWide (footprints_of self.now.blocks.items) }
        requires even { Divides 2 bytes }
        requires few { (s : Footprint) → slice_get (footprints_of self.now.blocks.items) self.now.here ≡ Some s → bytes ≤ s.bytes }
        ensures moved { IfOk result (λ o. IfSome o (λ m. IsMoved self.now bytes m.at.items m.by)) }
        ensures right { IfOk result (λ o. IfSome o (λ m. AreKnownRight self.now (news self.now bytes m.at.items) m.by)) }
        ensures none { IfOk result (λ o. IfNone o ((gone : ℕ) → AllReach self.now.base (lessen self.now.here bytes gone (footprints_of self.now.blocks.items)) → ⊥)) }
    {
        let mut next = self.wall();
        let mut at = self.wall_address(next, bytes)?;
        let new = Vec::with_capacity(alloc, FEW)?;
        let mut moved = Move { at: new, by: 0 };
        if !self.is_right_if(true, &moved, bytes, self.here) {
            return Ok(None);
        }
        while next < self.blocks.len() {
            let block = &self.blocks[next];
            let old = self.address(next);
            if is_together(at, old, block.alignment) {
                moved.by = old - at;
                return Ok(Some(moved));
            }
            moved.at.push(at)?;
            at = behind(at, &block.head, block.bytes)?;
            if !self.is_met(true, &moved, bytes, next) {
                return Ok(None);
            }
            next += 1;
        }
        Ok(Some(moved))
    }

    // ---- the end of the walk ----

    /// Whether the code is so small that no call of a label comes out of reach after the move.
    fn is_small(&self, bytes: u32) -> bool
        requires { IsLaid self.now }
        ensures { result ≡ true → (j at end : ℕ) → slice_get (starts_of self.now) 0 ≡ Some at → suc j ≡ length self.now.blocks.items → slice_get (starts_of self.now) j ≡ Some end → end + bytes ≤ at + 16000000 }
    {
        let end = self.address(self.blocks.len() - 1);
        let start = self.address(0);
        bytes <= SMALL && end.saturating_sub(start) <= SMALL - bytes
    }

    /// The first calm block before the wall that is looked at: where the blocks that move together move by less, they may come out of the calm ones' reach.
    fn near(&self, moved: &Move, bytes: u32) -> usize
        requires { IsLaid self.now }
        ensures { AreFar self.now bytes moved.now.by result }
    {
        let wall = self.wall();
        if moved.by >= bytes {
            return wall;
        }
        if wall == self.blocks.len() {
            return wall;
        }
        if !self.is_small(bytes) {
            return self.here + 1;
        }
        let end = self.address(wall);
        let mut number = wall;
        while number > self.here + 1 {
            let at = self.address(number - 1);
            if end.saturating_sub(at) > REACH {
                return number;
            }
            number -= 1;
        }
        number
    }

    /// Whether the mentions of addresses that are set are within reach after the move. They are looked at where the slack doesn't suffice.
    fn keeps_reach(&self, moved: &Move, bytes: u32) -> bool
        requires laid { IsLaid self.now }
        requires is { IsMove self.now (news self.now bytes moved.now.at.items) moved.now.by }
        ensures all { result ≡ true → has_slack self.now moved.now.by ≡ false → (j : ℕ) → Contains self.now.absolute.items j → IsRightIf false self.now (news self.now bytes moved.now.at.items) moved.now.by j }
        ensures none { ((j : ℕ) → IsRightIf false self.now (news self.now bytes moved.now.at.items) moved.now.by j) → result ≡ true }
    {
        self.has_slack(moved) || self.are_right_if(false, moved, bytes, &self.absolute)
    }

    /// Whether all that could come out of reach is within reach after the move, where all that was looked at on the walk is.
    fn all_reach(&self, moved: &Move, bytes: u32) -> bool
        requires laid { IsLaid self.now }
        requires wide { AreWide (footprints_of self.now.blocks.items) }
        requires moved { IsMoved self.now bytes moved.now.at.items moved.now.by }
        requires few { (s : Footprint) → slice_get (footprints_of self.now.blocks.items) self.now.here ≡ Some s → bytes ≤ s.bytes }
        requires is { IsMove self.now (news self.now bytes moved.now.at.items) moved.now.by }
        requires right { AreKnownRight self.now (news self.now bytes moved.now.at.items) moved.now.by }
        ensures all { result ≡ true → IsLookedAt self.now (news self.now bytes moved.now.at.items) moved.now.by }
        ensures none { ((j : ℕ) → IsRight (moved_starts self.now (news self.now bytes moved.now.at.items) moved.now.by) self.now.blocks.items j) → result ≡ true }
    {
        if !self.is_right_if(false, moved, bytes, self.here) {
            return false;
        }
        let first = self.near(moved, bytes);
        let end = self.wall() + moved.at.len();
        for number in first..end {
            if !self.is_met(false, moved, bytes, number) {
                return false;
            }
        }
        moved.by == 0
            || (self.are_right_if(false, moved, bytes, &self.loose)
                && self.keeps_reach(moved, bytes))
    }

    /// How blocks move if the current one takes so many bytes fewer. None where a mention would be out of reach.
    pub(crate) fn move_within_reach(
        &self,
        alloc: Global,
        bytes: u32,
    ) -> Result<Option<Move>, Memory>
        requires laid { IsLaid self.now }
        requires wide { AreWide (footprints_of self.now.blocks.items) }
        requires even { Divides 2 bytes }
        requires few { (s : Footprint) → slice_get (footprints_of self.now.blocks.items) self.now.here ≡ Some s → bytes ≤ s.bytes }
        ensures reach { IfOk result (λ o. (gone : ℕ) → (is_some o ≡ true) ↔ AllReach self.now.base (lessen self.now.here bytes gone (footprints_of self.now.blocks.items))) }
        ensures moved { IfOk result (λ o. IfSome o (λ m. IsMoved self.now bytes m.at.items m.by)) }
    {
        let Some(moved) = self.walk(alloc, bytes)? else {
            return Ok(None);
        };
        if self.all_reach(&moved, bytes) {
            Ok(Some(moved))
        } else {
            Ok(None)
        }
    }
}
