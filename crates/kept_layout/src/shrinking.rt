//! Carries out a move: a block takes fewer bytes, the blocks after it get new addresses, and from where all the rest moves by one distance that is noted for
//! all of them at once.
ghost use Rattle.std.specs.Prelude.{◌≡◌, ◌+◌, ◌-◌, ◌<◌, ◌≤◌, ℕ, true, length, slice_get, IfOk, OnOk, Some, map};
ghost use Rattle.kept_layout.specs.declared.block.Block.{Block as OneBlock};
ghost use Rattle.kept_layout.specs.Blocks.{lag_of, lessen, located, footprints_of, AllReach, Footprint};
ghost use Rattle.kept_layout.specs.Kept.{IsLaid};
ghost use Rattle.kept_layout.specs.Moves.{keeps_gap, moved_starts, news, unplaced, AreNoted, AreNotedIn, IsLagAfter, IsMove, IsMoved, IsNote};

use crate::block::Block;
use crate::groups::take_places;
use crate::kept::KeptLayout;
use crate::lag::Lag;
use listing_parser::Memory;

/// How blocks move if the current one takes fewer bytes.
#[derive(Drop)]
pub struct Move {
    /// The new addresses of the blocks from the wall on. The calm blocks before the wall lie earlier by the bytes that go.
    pub at: Vec<u32>,
    /// How many bytes earlier all blocks after these lie.
    pub by: u32,
}

/// Takes so many bytes and places from a block.
fn take_from(block: &mut Block, bytes: u32, gone: usize)
    requires bytes { bytes ≤ block.old.bytes }
    requires places { gone ≤ block.old.places }
    ensures { block.new ≡ record block.old { bytes = block.old.bytes - bytes; places = block.old.places - gone } }
{
    block.bytes -= bytes;
    block.places -= gone;
}

/// The address to note for a block that lay at `old`: that after the move, with the block's new lag added.
fn note(
    kept: &KeptLayout,
    moved: &Move,
    bytes: u32,
    lag: &Lag,
    number: usize,
    old: u32,
) -> Result<u32, Memory>
    requires { kept.now.here < length kept.now.blocks.items }
    ensures { IfOk result (λ at. IsNote kept.now bytes moved.now.at.items moved.now.by lag.now number old at) }
{
    let behind = lag.of(number);
    if number <= kept.here {
        return old.checked_add(behind).ok_or(Memory);
    }
    let wall = kept.wall();
    if number < wall {
        return old.saturating_sub(bytes).checked_add(behind).ok_or(Memory);
    }
    if number - wall < moved.at.len() {
        return moved.at[number - wall].checked_add(behind).ok_or(Memory);
    }
    old.saturating_sub(moved.by)
        .checked_add(behind)
        .ok_or(Memory)
}

impl KeptLayout {
    /// The address of a block.
    pub(crate) fn address(&self, number: usize) -> u32
        requires within { number < length self.now.blocks.items }
        requires noted { (s : OneBlock) → slice_get self.now.blocks.items number ≡ Some s → lag_of self.now.lag number ≤ s.at }
        ensures { (s : OneBlock) → slice_get self.now.blocks.items number ≡ Some s → result ≡ located self.now.lag number s.at }
    {
        self.blocks[number].at - self.lag.of(number)
    }

    /// The address of a block after the move.
    pub(crate) fn new_address(&self, moved: &Move, bytes: u32, number: usize) -> u32
        requires laid { IsLaid self.now }
        requires is { IsMove self.now (news self.now bytes moved.now.at.items) moved.now.by }
        requires within { number < length self.now.blocks.items }
        ensures { slice_get (moved_starts self.now (news self.now bytes moved.now.at.items) moved.now.by) number ≡ Some result }
    {
        let old = self.address(number);
        if number <= self.here {
            return old;
        }
        let wall = self.wall();
        if number < wall {
            return old.saturating_sub(bytes);
        }
        if number - wall < moved.at.len() {
            moved.at[number - wall]
        } else {
            old - moved.by
        }
    }

    // ---- what is noted ----

    /// Notes the address of a block after the move.
    fn note_one(&mut self, moved: &Move, bytes: u32, lag: &Lag, number: usize) -> Result<(), Memory>
        requires here { self.old.here < length self.old.blocks.items }
        requires within { number < length self.old.blocks.items }
        requires noted { (s : OneBlock) → slice_get self.old.blocks.items number ≡ Some s → lag_of self.old.lag number ≤ s.at }
        ensures fields { OnOk result (self.new ≡ record self.old { blocks = self.new.blocks }) }
        ensures same { OnOk result (map unplaced self.new.blocks.items ≡ map unplaced self.old.blocks.items) }
        ensures others { OnOk result ((j : ℕ) → (j ≡ number → ⊥) → slice_get self.new.blocks.items j ≡ slice_get self.old.blocks.items j) }
        ensures note { OnOk result ((s d : OneBlock) → slice_get self.old.blocks.items number ≡ Some s → slice_get self.new.blocks.items number ≡ Some d → IsNote self.old bytes moved.now.at.items moved.now.by lag.now number (located self.old.lag number s.at) d.at) }
    {
        let old = self.address(number);
        let at = note(self, moved, bytes, lag, number, old)?;
        self.blocks[number].at = at;
        Ok(())
    }

    /// Notes the addresses of the blocks in `from..until` after the move.
    fn note_range(
        &mut self,
        moved: &Move,
        bytes: u32,
        lag: &Lag,
        from: usize,
        until: usize,
    ) -> Result<(), Memory>
        requires here { self.old.here < length self.old.blocks.items }
        requires order { from ≤ until }
        requires within { until ≤ length self.old.blocks.items }
        requires noted { (j : ℕ) (s : OneBlock) → from ≤ j → slice_get self.old.blocks.items j ≡ Some s → lag_of self.old.lag j ≤ s.at }
        ensures fields { OnOk result (self.new ≡ record self.old { blocks = self.new.blocks }) }
        ensures noted { OnOk result (AreNotedIn self.old bytes moved.now.at.items moved.now.by lag.now from until self.new.blocks.items) }
    {
        for number in from..until {
            self.note_one(moved, bytes, lag, number)?;
        }
        Ok(())
    }

    /// Whether the blocks with the lag `gap` end right at the wall, so that the gap can go on for them.
    fn keeps_gap(&self) -> bool
        requires { self.now.here < length self.now.blocks.items }
        ensures { result ≡ keeps_gap self.now }
    {
        let wall = self.wall();
        self.lag.until == wall && wall <= self.lag.border
    }

    /// The lag of the calm blocks up to the wall after the move.
    fn new_gap(&self, bytes: u32) -> Result<u32, Memory>
        requires { self.now.here < length self.now.blocks.items }
        ensures { IfOk result (λ gap. keeps_gap self.now ≡ true → gap ≡ self.now.lag.gap + bytes) }
    {
        if self.keeps_gap() {
            self.lag.gap.checked_add(bytes).ok_or(Memory)
        } else {
            Ok(0)
        }
    }

    /// The lags of blocks after the move.
    fn new_lag(&self, moved: &Move, bytes: u32) -> Result<Lag, Memory>
        requires laid { IsLaid self.now }
        requires is { IsMove self.now (news self.now bytes moved.now.at.items) moved.now.by }
        ensures { IfOk result (λ lag. IsLagAfter self.now bytes moved.now.at.items moved.now.by lag) }
    {
        let wall = self.wall();
        let shift = self.lag.shift.checked_add(moved.by).ok_or(Memory)?;
        let gap = self.new_gap(bytes)?;
        Ok(Lag {
            border: wall + moved.at.len(),
            shift,
            from: self.here + 1,
            until: wall,
            gap,
        })
    }

    /// Notes the addresses of blocks after the move. Blocks whose lag grows by just the bytes by which they move aren't looked at.
    fn note_all(&mut self, moved: &Move, bytes: u32, lag: &Lag) -> Result<(), Memory>
        requires laid { IsLaid self.old }
        requires is { IsMove self.old (news self.old bytes moved.now.at.items) moved.now.by }
        requires few { (s : Footprint) → slice_get (footprints_of self.old.blocks.items) self.old.here ≡ Some s → bytes ≤ s.bytes }
        requires lag { IsLagAfter self.old bytes moved.now.at.items moved.now.by lag.now }
        ensures fields { OnOk result (self.new ≡ record self.old { blocks = self.new.blocks }) }
        ensures noted { OnOk result (AreNoted self.old (news self.old bytes moved.now.at.items) moved.now.by lag.now self.new.blocks.items) }
    {
        let first = self.here + 1;
        let from = self.lag.from;
        let wall = self.wall();
        let end = lag.border.max(self.lag.border);
        if self.keeps_gap() {
            self.note_range(
                moved,
                bytes,
                lag,
                first.min(from),
                first.max(from).min(wall),
            )?;
            self.note_range(moved, bytes, lag, wall, end)
        } else {
            self.note_range(moved, bytes, lag, first.min(from).min(self.lag.border), end)
        }
    }

    /// Takes so many bytes and places from the current block. `moved` is how blocks then move, and all mentions must stay within reach.
    pub(crate) fn shrink(&mut self, moved: &Move, bytes: u32, gone: usize) -> Result<(), Memory>
        requires laid { IsLaid self.old }
        requires moved { IsMoved self.old bytes moved.now.at.items moved.now.by }
        requires few { (s : Footprint) → slice_get (footprints_of self.old.blocks.items) self.old.here ≡ Some s → bytes ≤ s.bytes }
        requires some { (s : Footprint) → slice_get (footprints_of self.old.blocks.items) self.old.here ≡ Some s → gone ≤ s.places }
        requires reach { AllReach self.old.base (lessen self.old.here bytes gone (footprints_of self.old.blocks.items)) }
        ensures laid { OnOk result (IsLaid self.new) }
        ensures footprints { OnOk result (footprints_of self.new.blocks.items ≡ lessen self.old.here bytes gone (footprints_of self.old.blocks.items)) }
        ensures base { OnOk result (self.new.base ≡ self.old.base) }
    {
        let (slack, slack_from) = self.new_slack(moved, bytes);
        let lag = self.new_lag(moved, bytes)?;
        self.note_all(moved, bytes, &lag)?;
        self.slack = slack;
        self.slack_from = slack_from;
        self.lag = lag;
        let here = self.here;
        take_places(&mut self.rooms, here, gone);
        take_from(&mut self.blocks[here], bytes, gone);
        Ok(())
    }
}
