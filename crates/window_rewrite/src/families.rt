//! The families of a table at a window: a family's number has one value there at most, which is read off the window's canonical form.
ghost use Rattle.std.specs.Prelude.{◌≡◌, ◌+◌, ◌<◌, ◌≤◌, ◌==◌, length, map, true, is_some, IfOk, OnOk, IfSome, IfNone, MatchOption, Some};
ghost use Rattle.std.specs.Int.{from_bool};
ghost use Rattle.std.specs.List.{list_any};
ghost use Rattle.bit_blast.specs.Slots.{instance, Byte, IsValue};
ghost use Rattle.rule_table.specs.Views.{family_of, rule_of};
ghost use Rattle.table_audit.specs.Families.{entry_at, is_hole, symbol_of};
ghost use Rattle.step_ledger.specs.Counts.{RisesByAtLeast};
ghost use Rattle.window_rewrite.specs.Families.{AwaitsFamily, IsByteOf, IsInstance, IsOnlyInstance, IsFamilyChoice, IsLowestFamily, NoneOfFamily, NoneOfFamilies};
ghost use Rattle.window_rewrite.specs.Forms.{form_of};
ghost use Rattle.window_rewrite.specs.Rules.{side_length, IsRaised};
ghost use Rattle.window_rewrite.specs.Hashes.{blind};
ghost use Rattle.window_rewrite.specs.Choices.{families_sides, of_length, AreReady};
ghost use Rattle.window_rewrite.specs.Scenes.{lines_seen, number_seen, IsSight};
ghost use Rattle.window_rewrite.specs.Layouts.{Moves};

use crate::choice::Choice;
use crate::finding::{Rules, Sight, try_rule};
use crate::forms::{Form, form_of};
use crate::hashes::blind_all;
use listing_parser::Memory;
use rule_table::{Entry, Family};
use std::alloc::Global;
use step_ledger::{Ledger, Steps};
use table_audit::{is_hole, raised_side};
use thumb_instr::{Byte, Instr};

/// The number that `movs`, `cmp`, `adds` or `subs` has in 8 bits.
fn byte_of(instr: &Instr) -> Option<Byte>
    ensures { (x : Byte) → IsByteOf instr.now x → result ≡ Some x }
{
    match *instr {
        Instr::TwoNumber { number, .. } => Some(number),
        _ => None,
    }
}

/// The value of a family's number with which an entry's left side may be `side`: what `side` has at the first hole of the left side.
fn value_at(number: u32, left: &[Instr], side: &[Instr]) -> Option<Byte>
    ensures { (x : Byte) → list_any (is_hole number) left.now ≡ true → instance number left.now x ≡ side.now → result ≡ Some x }
{
    match left {
        [] => None,
        [first, rest @ ..] => match side {
            [] => None,
            [other, others @ ..] => {
                if is_hole(number, first) {
                    byte_of(other)
                } else {
                    value_at(number, rest, others)
                }
            }
        },
    }
}

/// An instance of a family.
#[derive(Drop)]
struct Instance {
    /// Its sides and its mask.
    rule: Entry,
    /// How far the number's value is above the least of the range.
    number: u8,
}

/// The instance with a value of the range.
fn instance_with(alloc: Global, family: &Family, entry: &Entry, value: Byte) -> Instance
    requires bytes { family.now.high ≤ 255 }
    requires value { IsValue (symbol_of (family_of family.now)) value }
    ensures { IsInstance (family_of family.now) (rule_of entry.now) value result }
{
    Instance {
        rule: Entry {
            left: raised_side(entry.left.as_slice(), family.number, value),
            right: raised_side(entry.right.as_slice(), family.number, value),
            mask: entry.mask,
            opens: Vec::new(alloc),
            proof: Vec::new(alloc),
        },
        number: (value.number - family.low) as u8,
    }
}

/// The one instance whose left side may be this one, if its value is in the range.
fn instance_at(alloc: Global, family: &Family, entry: &Entry, side: &[Instr]) -> Option<Instance>
    requires bytes { family.now.high ≤ 255 }
    requires held { list_any (is_hole family.now.number) entry.now.left ≡ true }
    ensures { MatchOption result ((x : Byte) → IsValue (symbol_of (family_of family.now)) x → instance family.now.number entry.now.left x ≡ side.now → ⊥) (IsOnlyInstance (family_of family.now) (rule_of entry.now) side.now) }
{
    match value_at(family.number, entry.left.as_slice(), side) {
        None => None,
        Some(value) => {
            if value.number < family.low || family.high < value.number {
                return None;
            }
            Some(instance_with(alloc, family, entry, value))
        }
    }
}

/// The entry that a family raises.
fn entry_raised<'a>(entries: &'a [Entry], family: &Family) -> &'a Entry
    requires { IsRaised (map rule_of entries.now) (family_of family.now) }
    ensures { entry_at (map rule_of entries.now) family.now.entry ≡ Some (rule_of result.now) }
{
    &entries[family.entry as usize - 1]
}

/// The choice by the family of a number at a window, if an instance of it applies there. `refused` becomes true where an instance fits and the lines that it
/// would leave are refused.
fn try_family<L: Ledger>(
    alloc: Global,
    sight: &Sight<'_>,
    number: usize,
    refused: &mut bool,
    steps: &mut Steps<L>,
) -> Result<Option<Choice>, Memory>
    requires sight { IsSight sight.now }
    requires number { number < length sight.now.lookup.now.rules.now.families.now }
    ensures some { IfOk result (λ o. IfSome o (IsFamilyChoice sight.now.lookup.now.rules.now (lines_seen sight.now.lookup.now) (number_seen sight.now.lookup.now) (length sight.now.window.now) number)) }
    ensures moved { IfOk result (λ o. IfSome o (λ c. Moves sight.now.lookup.now.scene.now.layout c.window c.new c.moved)) }
    ensures none { IfOk result (λ o. IfNone o (NoneOfFamily refused.new sight.now.lookup.now.rules.now (lines_seen sight.now.lookup.now) (number_seen sight.now.lookup.now) (length sight.now.window.now) number)) }
    ensures stays { OnOk result (refused.old ≡ true → refused.new ≡ true) }
    ensures cost { steps.new ≤ steps.old + from_bool (side_length (families_sides sight.now.lookup.now.rules.now) number == length sight.now.window.now) }
    ensures rises { IfOk result (λ o. RisesByAtLeast steps.old steps.new (from_bool (is_some o))) }
{
    let family = &sight.lookup.rules.families[number];
    let entry = entry_raised(sight.lookup.rules.entries, family);
    if entry.left.len() != sight.window.len() {
        return Ok(None);
    }
    match instance_at(alloc, family, entry, sight.form.side.as_slice()) {
        None => Ok(None),
        Some(instance) => try_rule(
            alloc,
            sight,
            &instance.rule,
            (sight.lookup.rules.entries.len() + number) as u64 + 1,
            instance.number,
            refused,
            steps,
        ),
    }
}

/// The hash of a window's canonical form with 0 for 8-bit numbers.
fn hidden_of(form: &Form) -> usize
    ensures { result ≡ form_of (map blind form.now.side) }
{
    form_of(blind_all(form.side.as_slice()).as_slice())
}

/// The first family in the chain of a window's canonical form: its left side may stand in the window, 8-bit numbers aside.
fn first_number(rules: &Rules<'_>, form: &Form) -> Option<usize>
    requires { AreReady rules.now }
    ensures { AwaitsFamily rules.now form.now.side 0 result }
{
    rules.index.families.first(hidden_of(form))
}

/// The lowest family that applies to a window.
pub(crate) fn lowest_family<L: Ledger>(
    alloc: Global,
    sight: &Sight<'_>,
    refused: &mut bool,
    steps: &mut Steps<L>,
) -> Result<Option<Choice>, Memory>
    requires { IsSight sight.now }
    ensures some { IfOk result (λ o. IfSome o (IsLowestFamily sight.now.lookup.now.rules.now (lines_seen sight.now.lookup.now) (number_seen sight.now.lookup.now) (length sight.now.window.now))) }
    ensures moved { IfOk result (λ o. IfSome o (λ c. Moves sight.now.lookup.now.scene.now.layout c.window c.new c.moved)) }
    ensures none { IfOk result (λ o. IfNone o (NoneOfFamilies refused.new sight.now.lookup.now.rules.now (lines_seen sight.now.lookup.now) (number_seen sight.now.lookup.now) (length sight.now.window.now) (length sight.now.lookup.now.rules.now.families.now))) }
    ensures stays { OnOk result (refused.old ≡ true → refused.new ≡ true) }
    ensures cost { steps.new ≤ steps.old + of_length (length sight.now.window.now) (families_sides sight.now.lookup.now.rules.now) }
    ensures rises { IfOk result (λ o. RisesByAtLeast steps.old steps.new (from_bool (is_some o))) }
{
    let rules = sight.lookup.rules;
    if rules.families.is_empty() {
        return Ok(None);
    }
    let mut at = first_number(rules, sight.form);
    while let Some(number) = at {
        if let Some(choice) = try_family(alloc, sight, number, refused, steps)? {
            return Ok(Some(choice));
        }
        at = rules.index.families.next(number);
    }
    Ok(None)
}
