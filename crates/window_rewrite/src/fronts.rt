//! A bound, by the marks, on the length of the left sides that a run of instructions may begin with. Left sides of entries are marked with registers ignored,
//! those of families also with 0 for 8-bit numbers. Where a table has no families their marks aren't asked.
ghost use Rattle.std.specs.Prelude.{◌≡◌, ◌≤◌, ◌<◌, ℕ, List, length, map, true, false, Some, if◌then◌else◌};
ghost use Rattle.window_runs.specs.declared.rows.WindowPlace.{WindowPlace};
ghost use Rattle.window_runs.specs.Runs.{instr_at, run};
ghost use Rattle.rule_table.specs.Views.{family_of, rule_of};
ghost use Rattle.window_rewrite.specs.Fitting.{NoneMarked, NoneReaches, NoneStands};
ghost use Rattle.window_rewrite.specs.Rules.{families_in, is_marked, AreMany};
ghost use Rattle.window_rewrite.specs.Choices.{table_in, AreReady};

use crate::finding::Rules;
use crate::hashes::{hash_of, next_hash, seen};
use crate::left_side_hashes::LeftSideHashes;
use thumb_instr::Instr;

/// Whether a side that is marked may begin with this instruction.
fn may_begin_in(marks: &LeftSideHashes, hidden: bool, first: Instr) -> bool
    requires { AreMany marks.now }
    ensures { result ≡ false → (rows : List WindowPlace) → Some first ≡ instr_at true rows → (most : ℕ) → NoneMarked marks.now hidden (run true most rows) 0 }
{
    marks.has_front(next_hash(0, &seen(hidden, first)))
}

/// Whether some left side may begin with the first instruction of a run, registers aside; false of an empty run. Where it is false, no rule whose right side
/// weighs less stands first in the run.
pub(crate) fn may_begin(rules: &Rules<'_>, first: Option<Instr>) -> bool
    requires ready { AreReady rules.now }
    ensures { result ≡ false → (rows : List WindowPlace) → first ≡ instr_at true rows → (most : ℕ) → NoneReaches rules.now.costs.now (table_in rules.now) (run true most rows) 0 }
{
    match first {
        None => false,
        Some(instr) => {
            if may_begin_in(&rules.index.marks, false, instr) {
                return true;
            }
            if rules.families.is_empty() {
                return false;
            }
            may_begin_in(&rules.index.holes, true, instr)
        }
    }
}

/// `count` if a marked side may have this hash, else `other`.
fn longest_of(marks: &LeftSideHashes, hash: usize, count: usize, other: usize) -> usize
    requires many { AreMany marks.now }
    requires small { hash < 65536 }
    ensures { result ≡ (if is_marked marks.now.wholes.items hash then count else other) }
{
    if marks.has_whole(hash) { count } else { other }
}

/// How many instructions a marked side that a run begins with may have at most, registers aside; 0 where there is none.
fn reach_in(marks: &LeftSideHashes, hidden: bool, run: &[Instr]) -> usize
    requires { AreMany marks.now }
    ensures within { result ≤ length run.now }
    ensures none { NoneMarked marks.now hidden run.now result }
{
    let mut hash = 0;
    let mut reached = 0;
    for at in 0..run.len() {
        hash = next_hash(hash, &seen(hidden, run[at]));
        if !marks.has_front(hash) {
            return reached;
        }
        reached = longest_of(marks, hash, at + 1, reached);
    }
    reached
}

/// How many instructions a left side that a run begins with may have at most, registers aside; 0 where there is none. No rule whose right side weighs less has
/// a longer left side that stands first in the run.
pub(crate) fn reach(rules: &Rules<'_>, run: &[Instr]) -> usize
    requires ready { AreReady rules.now }
    ensures within { result ≤ length run.now }
    ensures none { NoneReaches rules.now.costs.now (table_in rules.now) run.now result }
{
    let own = reach_in(&rules.index.marks, false, run);
    if rules.families.is_empty() {
        return own;
    }
    let raised = reach_in(&rules.index.holes, true, run);
    own.max(raised)
}

/// Whether an instance of a family may stand in a window, registers and 8-bit numbers aside.
fn may_raise(rules: &Rules<'_>, window: &[Instr]) -> bool
    requires ready { AreReady rules.now }
    ensures { result ≡ false → NoneStands rules.now.costs.now (families_in (map rule_of rules.now.entries.now) (map family_of rules.now.families.now)) window.now }
{
    if rules.families.is_empty() {
        return false;
    }
    rules.index.holes.has_whole(hash_of(true, window))
}

/// Whether a rule may stand in a window, registers and, of families, 8-bit numbers aside.
pub(crate) fn may_stand(rules: &Rules<'_>, window: &[Instr]) -> bool
    requires ready { AreReady rules.now }
    ensures { result ≡ false → NoneStands rules.now.costs.now (table_in rules.now) window.now }
{
    if rules.index.marks.has_whole(hash_of(false, window)) {
        return true;
    }
    may_raise(rules, window)
}
