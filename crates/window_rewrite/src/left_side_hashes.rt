//! Marks of the hashes of the left sides that are looked for, registers ignored: none of these stands in a window whose hash isn't marked.
ghost use Rattle.std.specs.Prelude.{◌≡◌, ◌+◌, ◌<◌, ℕ, length, map, slice_get, Some, true, IfOk};
ghost use Rattle.rule_model.specs.Rules.{Rule, alone};
ghost use Rattle.rule_table.specs.Views.{family_of, rule_of};
ghost use Rattle.table_audit.specs.Families.{entry_at};
ghost use Rattle.table_audit.specs.Soundness.{instances_of};
ghost use Rattle.window_rewrite.specs.Rules.{blind_side, families_in, is_marked, is_lighter, left_side, rules_in, AreMany, AreMarked, AreNoted, IsNoted, StayNoted};
ghost use Rattle.window_rewrite.specs.Hashes.{hash_of};

use crate::hashes::{HASHES, blind_all, next_hash};
use crate::shadows::is_lighter;
use listing_parser::Memory;
use rule_table::{Entry, Family};
use seq_enum::Costs;
use std::alloc::Global;
use table_audit::entry_at;
use thumb_instr::Instr;

/// Which hashes the left sides have of the rules whose right sides weigh less.
#[derive(Drop)]
pub(crate) struct LeftSideHashes {
    /// For each hash, whether a left side may have it.
    wholes: Vec<bool>,
    /// For each hash, whether a left side may begin with instructions that have it.
    fronts: Vec<bool>,
}

/// Marks a hash.
fn mark(marks: &mut Vec<bool>, hash: usize)
    requires many { length marks.old.items ≡ 65536 }
    requires small { hash < 65536 }
    ensures many { length marks.new.items ≡ 65536 }
    ensures kept { (q : ℕ) → is_marked marks.old.items q ≡ true → is_marked marks.new.items q ≡ true }
    ensures here { is_marked marks.new.items hash ≡ true }
{
    marks[hash] = true;
}

/// Marks the hashes of a left side's prefixes, and returns the hash of the whole side.
pub(crate) fn mark_fronts(marks: &mut Vec<bool>, left: &[Instr]) -> usize
    requires { length marks.old.items ≡ 65536 }
    ensures many { length marks.new.items ≡ 65536 }
    ensures kept { (q : ℕ) → is_marked marks.old.items q ≡ true → is_marked marks.new.items q ≡ true }
    ensures fronts { AreMarked marks.new.items left.now (length left.now) }
    ensures hash { result ≡ hash_of left.now }
    ensures small { result < 65536 }
{
    let mut hash = 0;
    for instr in left {
        hash = next_hash(hash, instr);
        mark(marks, hash);
    }
    hash
}

impl LeftSideHashes {
    /// No marks.
    fn none(alloc: Global) -> Result<LeftSideHashes, Memory>
        ensures { IfOk result AreMany }
    {
        Ok(LeftSideHashes {
            wholes: vec![in alloc; false; HASHES]?,
            fronts: vec![in alloc; false; HASHES]?,
        })
    }

    /// The marks of these entries.
    pub(crate) fn of(
        alloc: Global,
        costs: &Option<Costs>,
        entries: &[Entry],
    ) -> Result<LeftSideHashes, Memory>
        ensures { IfOk result (AreNoted costs.now left_side (alone (rules_in entries.now)) (length entries.now)) }
    {
        let mut marks = LeftSideHashes::none(alloc)?;
        for number in 0..entries.len() {
            marks.add(costs, entries, number);
        }
        Ok(marks)
    }

    /// The marks of these families, by left sides with 0 for 8-bit numbers.
    pub(crate) fn of_families(
        alloc: Global,
        costs: &Option<Costs>,
        entries: &[Entry],
        families: &[Family],
    ) -> Result<LeftSideHashes, Memory>
        ensures { IfOk result (AreNoted costs.now blind_side (families_in (map rule_of entries.now) (map family_of families.now)) (length families.now)) }
    {
        let mut marks = LeftSideHashes::none(alloc)?;
        for number in 0..families.len() {
            marks.add_family(costs, entries, &families[number]);
        }
        Ok(marks)
    }

    /// Marks a side.
    fn add_side(&mut self, side: &[Instr])
        requires { AreMany self.old }
        ensures many { AreMany self.new }
        ensures stay { StayNoted self.old self.new }
        ensures noted { IsNoted self.new side.now }
    {
        let hash = mark_fronts(&mut self.fronts, side);
        mark(&mut self.wholes, hash);
    }

    /// Marks the left side of an entry, if its right side weighs less.
    fn add(&mut self, costs: &Option<Costs>, entries: &[Entry], number: usize)
        requires number { number < length entries.now }
        requires marks { AreNoted costs.now left_side (alone (rules_in entries.now)) number self.old }
        ensures { AreNoted costs.now left_side (alone (rules_in entries.now)) (number + 1) self.new }
    {
        if !is_lighter(costs, &entries[number]) {
            return;
        }
        self.add_side(entries[number].left.as_slice());
    }

    /// Marks the left side that a family's instances share but for the number, if their right sides weigh less.
    fn add_family(&mut self, costs: &Option<Costs>, entries: &[Entry], family: &Family)
        requires { AreMany self.old }
        ensures many { AreMany self.new }
        ensures stay { StayNoted self.old self.new }
        ensures noted { (i : ℕ) (rule : Rule) → slice_get (instances_of (family_of family.now) (entry_at (map rule_of entries.now) family.now.entry)) i ≡ Some rule → is_lighter costs.now rule ≡ true → IsNoted self.new (blind_side rule) }
    {
        match entry_at(entries, family.entry) {
            None => {}
            Some(entry) => {
                if is_lighter(costs, entry) {
                    self.add_side(blind_all(entry.left.as_slice()).as_slice());
                }
            }
        }
    }

    /// Whether some left side may have this hash.
    pub(crate) fn has_whole(&self, hash: usize) -> bool
        requires many { AreMany self.now }
        requires small { hash < 65536 }
        ensures { result ≡ is_marked self.now.wholes.items hash }
    {
        self.wholes[hash]
    }

    /// Whether some left side may begin with instructions of this hash.
    pub(crate) fn has_front(&self, hash: usize) -> bool
        requires many { AreMany self.now }
        requires small { hash < 65536 }
        ensures { result ≡ is_marked self.now.fronts.items hash }
    {
        self.fronts[hash]
    }
}
