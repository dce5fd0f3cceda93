//! Slack: by how many bytes the mentions of addresses that are set may all move and stay within reach. None is looked at as long as moves don't use it up.
ghost use Rattle.std.specs.Prelude.{◌≡◌, ◌<◌, ℕ, true, List, length, slice_get, Some, None};
ghost use Rattle.thumb_model.specs.Layout.{aim_fault};
ghost use Rattle.kept_layout.specs.declared.block.Block.{Block as OneBlock};
ghost use Rattle.kept_layout.specs.Blocks.{head_fault, HasSlack, Reaches};
ghost use Rattle.kept_layout.specs.Kept.{IsLaid};
ghost use Rattle.kept_layout.specs.Moves.{has_slack as is_slack_enough, moved_starts, news, AreSlack, IsMove, IsRight};

use crate::block::{Head, NameLocation};
use crate::kept::KeptLayout;
use crate::shrinking::Move;
use thumb_instr::Instr;

/// By how many bytes an instruction that reaches what it mentions may lie earlier and still reach that.
fn slack_to(at: u32, instr: &Instr, to: u32, plus: u32) -> u32
    ensures { aim_fault at instr.now (Some to) plus ≡ None → Reaches result at instr.now to plus }
{
    let furthest = match instr {
        Instr::Literal { .. } | Instr::Address { .. } => at
            .saturating_add(4 + 1020)
            .saturating_sub(plus),
        Instr::BranchIf { .. } => at.saturating_add(4 + 2 * 128 - 1),
        Instr::Branch { .. } => at.saturating_add(4 + 2 * 1024 - 1),
        Instr::Call { .. } => at.saturating_add(4 + 2 * 8_388_608 - 1),
        _ => u32::MAX,
    };
    furthest.saturating_sub(to)
}

/// By how many bytes what a block at an address begins with may lie earlier and still reach an address that is set, which it reaches.
fn slack_of(at: u32, head: &Head) -> u32
    ensures { (starts : List ℕ) → head_fault starts at head.now ≡ None → HasSlack result at head.now }
{
    match head {
        Head::Aims(aim) => match aim.to {
            Some(NameLocation::Address(to)) => slack_to(at, &aim.instr, to, aim.plus),
            _ => u32::MAX,
        }
        _ => u32::MAX,
    }
}

impl KeptLayout {
    /// Whether the slack shows that no mention of an address that is set comes out of reach among the blocks that move together.
    pub(crate) fn has_slack(&self, moved: &Move) -> bool
        ensures { result ≡ is_slack_enough self.now moved.now.by }
    {
        moved.by <= self.slack && self.slack_from <= self.here
    }

    /// The slack of what a block begins with, after the move.
    fn own_slack(&self, moved: &Move, bytes: u32, number: usize) -> u32
        requires laid { IsLaid self.now }
        requires is { IsMove self.now (news self.now bytes moved.now.at.items) moved.now.by }
        requires within { number < length self.now.blocks.items }
        requires right { IsRight (moved_starts self.now (news self.now bytes moved.now.at.items) moved.now.by) self.now.blocks.items number }
        ensures { (at : ℕ) (s : OneBlock) → slice_get self.now.blocks.items number ≡ Some s → slice_get (moved_starts self.now (news self.now bytes moved.now.at.items) moved.now.by) number ≡ Some at → HasSlack result at s.head }
    {
        slack_of(
            self.new_address(moved, bytes, number),
            &self.blocks[number].head,
        )
    }

    /// The slack of all mentions after the current block, after the move: each of them is looked at.
    fn slack_behind(&self, moved: &Move, bytes: u32) -> u32
        requires laid { IsLaid self.now }
        requires is { IsMove self.now (news self.now bytes moved.now.at.items) moved.now.by }
        requires right { (j : ℕ) → IsRight (moved_starts self.now (news self.now bytes moved.now.at.items) moved.now.by) self.now.blocks.items j }
        ensures { AreSlack self.now (news self.now bytes moved.now.at.items) moved.now.by self.now.here result }
    {
        let mut slack = u32::MAX;
        for number in &self.absolute {
            if *number <= self.here {
                continue;
            }
            slack = slack.min(self.own_slack(moved, bytes, *number));
        }
        slack
    }

    /// The slack that is left after the move, where it suffices for that: only blocks that move by themselves are looked at.
    fn slack_left(&self, moved: &Move, bytes: u32) -> u32
        requires laid { IsLaid self.now }
        requires is { IsMove self.now (news self.now bytes moved.now.at.items) moved.now.by }
        requires right { (j : ℕ) → IsRight (moved_starts self.now (news self.now bytes moved.now.at.items) moved.now.by) self.now.blocks.items j }
        requires enough { is_slack_enough self.now moved.now.by ≡ true }
        ensures { AreSlack self.now (news self.now bytes moved.now.at.items) moved.now.by self.now.slack_from result }
    {
        let mut slack = self.slack - moved.by;
        let wall = self.wall();
        for number in wall..wall + moved.at.len() {
            slack = slack.min(self.own_slack(moved, bytes, number));
        }
        slack
    }

    /// The slack after the move, and the block after which it holds.
    pub(crate) fn new_slack(&self, moved: &Move, bytes: u32) -> (u32, usize)
        requires laid { IsLaid self.now }
        requires is { IsMove self.now (news self.now bytes moved.now.at.items) moved.now.by }
        requires right { (j : ℕ) → IsRight (moved_starts self.now (news self.now bytes moved.now.at.items) moved.now.by) self.now.blocks.items j }
        ensures { AreSlack self.now (news self.now bytes moved.now.at.items) moved.now.by result.1 result.0 }
    {
        if self.has_slack(moved) {
            (self.slack_left(moved, bytes), self.slack_from)
        } else {
            (self.slack_behind(moved, bytes), self.here)
        }
    }
}
