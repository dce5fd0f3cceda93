//! Which entries of a table are looked for: those whose right side weighs less than their left side. One that has the left side and the mask of an earlier one
//! of these and a right side as long is never the first that applies, unless the earlier one alone needs a scratch register: where it fits, so does the earlier
//! one, and the lines and their layout see only how many instructions go. It is shadowed.
ghost use Rattle.std.specs.Prelude.{◌≡◌, ◌+◌, ◌*◌, ◌/◌, ◌%◌, ◌<◌, length, slice_get, Some, true, IfOk};
ghost use Rattle.std.specs.List.{list_all};
ghost use Rattle.thumb_instr.specs.Window.{is_in_window};
ghost use Rattle.rule_model.specs.Rules.{Rule};
ghost use Rattle.window_rewrite.specs.Forms.{form_of};
ghost use Rattle.window_rewrite.specs.Rules.{entry_rule, is_lighter, rules_in, AreAlike, AreKept, AreLed, IsLed};

use crate::forms::form_of;
use crate::scratch::needs_scratch;
use listing_parser::Memory;
use rule_table::{Entry, same_kind};
use seq_enum::{Costs, weight};
use std::alloc::Global;
use table_audit::register_count;
use thumb_instr::{Instr, in_window, parts};

/// Whether an entry's right side weighs less than its left side.
pub(crate) fn is_lighter(costs: &Option<Costs>, entry: &Entry) -> bool
    ensures { result ≡ is_lighter costs.now (entry_rule entry.now) }
{
    weight(costs, &entry.right) < weight(costs, &entry.left)
}

/// Whether two instructions are the same; false where the first may not stand in a window.
fn is_same(instr: &Instr, other: &Instr) -> bool
    ensures same { result ≡ true → instr.now ≡ other.now }
    ensures all { is_in_window instr.now ≡ true → instr.now ≡ other.now → result ≡ true }
{
    let own = parts(instr);
    let others = parts(other);
    if !in_window(instr) {
        return false;
    }
    if !same_kind(own.kind, others.kind) {
        return false;
    }
    if own.first != others.first || own.second != others.second {
        return false;
    }
    own.third == others.third
}

/// Whether two sides are the same; false where an instruction of the first may not stand in a window.
pub(crate) fn are_same(side: &[Instr], other: &[Instr]) -> bool
    ensures same { result ≡ true → side.now ≡ other.now }
    ensures all { list_all is_in_window side.now ≡ true → side.now ≡ other.now → result ≡ true }
{
    match side {
        [] => other.is_empty(),
        [first, rest @ ..] => match other {
            [] => false,
            [second, others @ ..] => is_same(first, second) && are_same(rest, others),
        },
    }
}

/// Whether two entries have one left side and one mask, and right sides of one length, and the first needs a scratch register only where the other does.
fn are_alike(entry: &Entry, other: &Entry) -> bool
    ensures { result ≡ true → AreAlike (entry_rule entry.now) (entry_rule other.now) }
{
    if entry.mask.items.bits != other.mask.items.bits {
        return false;
    }
    if entry.right.len() != other.right.len() {
        return false;
    }
    let left = entry.left.as_slice();
    if !are_same(left, other.left.as_slice()) {
        return false;
    }
    let named = register_count(left);
    if !needs_scratch(entry, named) {
        return true;
    }
    needs_scratch(other, named)
}

/// Whether an earlier entry is alike to a later one; both are given by their index from 0.
fn leads(entries: &[Entry], earlier: usize, number: usize) -> bool
    requires earlier { earlier < length entries.now }
    requires within { number < length entries.now }
    ensures { result ≡ true → (a b : Rule) → slice_get (rules_in entries.now) earlier ≡ Some a → slice_get (rules_in entries.now) number ≡ Some b → AreAlike a b }
{
    are_alike(&entries[earlier], &entries[number])
}

/// A hash that is the same for entries that are alike.
fn number_of(entry: &Entry) -> usize
    ensures { result ≡ form_of entry.now.left + 6 * (entry.now.mask.items.bits % 16 + entry.now.mask.items.bits / 2048) + length entry.now.right }
{
    let bits = entry.mask.items.bits as usize;
    let mask = bits % 16 + bits / 2048;
    form_of(entry.left.as_slice()) + 6 * mask + entry.right.len()
}

/// Which of the entries that were looked at so far are kept.
#[derive(Drop)]
pub(crate) struct KeptEntries {
    /// Whether an entry is kept.
    kept: Vec<bool>,
    /// The kept entries in chains by their hash modulo how many entries there are: the last one of each chain, and for each kept entry the one before it.
    lasts: Vec<Option<usize>>,
    earlier: Vec<Option<usize>>,
}

impl KeptEntries {
    /// The chain of the kept entries that may be alike to this one.
    fn shared(&self, entry: &Entry) -> usize
        requires { 0 < length self.now.lasts.items }
        ensures { result < length self.now.lasts.items }
    {
        number_of(entry) % self.lasts.len()
    }

    /// Whether an entry has a kept one before it that is alike.
    fn has_leader(&self, costs: &Option<Costs>, entries: &[Entry], number: usize) -> bool
        requires kept { AreKept costs.now (rules_in entries.now) number self.now }
        requires within { number < length entries.now }
        ensures { result ≡ true → (rule : Rule) → slice_get (rules_in entries.now) number ≡ Some rule → IsLed costs.now (rules_in entries.now) self.now.kept.items number rule }
    {
        let mut at = self.lasts[self.shared(&entries[number])];
        while let Some(earlier) = at {
            if leads(entries, earlier, number) {
                return true;
            }
            at = self.earlier[earlier];
        }
        false
    }

    /// Keeps an entry, whose right side weighs less.
    fn keep(&mut self, costs: &Option<Costs>, entries: &[Entry], number: usize)
        requires kept { AreKept costs.now (rules_in entries.now) number self.old }
        requires lighter { (rule : Rule) → slice_get (rules_in entries.now) number ≡ Some rule → is_lighter costs.now rule ≡ true }
        requires within { number < length entries.now }
        ensures { AreKept costs.now (rules_in entries.now) (number + 1) self.new }
    {
        let shared = self.shared(&entries[number]);
        let before = self.lasts[shared];
        self.earlier[number] = before;
        self.lasts[shared] = Some(number);
        self.kept[number] = true;
    }

    /// Looks at the next entry, and keeps it if its right side weighs less and no kept one is alike.
    fn look(&mut self, costs: &Option<Costs>, entries: &[Entry], number: usize)
        requires kept { AreKept costs.now (rules_in entries.now) number self.old }
        requires within { number < length entries.now }
        ensures { AreKept costs.now (rules_in entries.now) (number + 1) self.new }
    {
        if !is_lighter(costs, &entries[number]) {
            return;
        }
        if self.has_leader(costs, entries, number) {
            return;
        }
        self.keep(costs, entries, number);
    }
}

/// Which entries are kept: those whose right side weighs less and to which no earlier kept one is alike.
pub(crate) fn kept_entries(
    alloc: Global,
    costs: &Option<Costs>,
    entries: &[Entry],
) -> Result<Vec<bool>, Memory>
    ensures led { IfOk result (λ kept. AreLed costs.now (rules_in entries.now) kept.items (length entries.now)) }
    ensures many { IfOk result (λ kept. length kept.items ≡ length entries.now) }
{
    let mut all = KeptEntries {
        kept: vec![in alloc; false; entries.len()]?,
        lasts: vec![in alloc; None; entries.len()]?,
        earlier: vec![in alloc; None; entries.len()]?,
    };
    for number in 0..entries.len() {
        all.look(costs, entries, number);
    }
    let KeptEntries {
        kept,
        lasts: _lasts,
        earlier: _earlier,
    } = all;
    Ok(kept)
}
