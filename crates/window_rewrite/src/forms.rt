//! What is needed of a window to find the entries that may fit it: its canonical form with a hash, and the items live after it, also by that form's names.
ghost use Rattle.std.specs.Prelude.{◌≡◌, ◌<◌, ◌↔◌, ℕ, List, map, true, IfOk, IfSome, IfNone};
ghost use Rattle.std.specs.List.{list_all};
ghost use Rattle.thumb_instr.specs.Items.{has};
ghost use Rattle.thumb_instr.specs.Window.{Low as LowRegister, is_in_window};
ghost use Rattle.rule_model.specs.Rules.{Rule, IsSoundRule};
ghost use Rattle.rule_table.specs.Views.{family_of, rule_of};
ghost use Rattle.table_audit.specs.Families.{entry_at};
ghost use Rattle.table_audit.specs.Shorter.{IsCanonicalSide};
ghost use Rattle.window_rewrite.specs.Fitting.{IsForm, Stands};
ghost use Rattle.window_rewrite.specs.Forms.{form_of, instr_number, next_form};
ghost use Rattle.window_rewrite.specs.Rules.{left_forms, raised_form, raised_forms, rules_in};

use crate::hashes::{HASHES, blind_all};
use crate::registers::registers_of;
use arrayvec::ArrayVec;
use listing_parser::Memory;
use rule_table::{Entry, Family, canonical};
use seq_enum::rank;
use std::alloc::Global;
use table_audit::entry_at;
use thumb_instr::{Instr, Items, Low, Mask, Seq, parts};

/// What is needed of a window to find the entries that may fit it.
#[derive(Drop)]
pub(crate) struct Form {
    /// The canonical form of the window, which is the left side of each rule that stands there, and its hash.
    pub(crate) side: Seq,
    pub(crate) number: usize,
    /// The window's registers in place of the side's.
    pub(crate) registers: ArrayVec<Low, 8>,
    /// The items that are live after it.
    pub(crate) live: Items,
    /// Those of them that an entry's mask must have for it to fit: flags, and the window's registers by the names of the canonical form.
    pub(crate) mask: Mask,
}

/// A number of one instruction, which depends on its registers too.
fn instr_number(instr: &Instr) -> usize
    ensures value { result ≡ instr_number instr.now }
    ensures small { result < 4928494698496 }
{
    let parts = parts(instr);
    let operands = parts.first as usize + 5 * parts.second as usize + 25 * parts.third as usize;
    37 * operands + rank(parts.kind).unwrap_or(0)
}

/// The hash of instructions and one more after them, from the hash of the former.
fn next_form(form: usize, instr: &Instr) -> usize
    requires { form < 65536 }
    ensures value { result ≡ next_form form instr.now }
    ensures small { result < 65536 }
{
    (form * 1283 + instr_number(instr)) % HASHES
}

/// The hash of instructions, which depends on their registers too.
pub(crate) fn form_of(instrs: &[Instr]) -> usize
    ensures value { result ≡ form_of instrs.now }
    ensures small { result < 65536 }
{
    let mut form = 0;
    for instr in instrs {
        form = next_form(form, instr);
    }
    form
}

/// The hashes of the left sides of entries.
pub(crate) fn left_forms(alloc: Global, entries: &[Entry]) -> Result<Vec<usize>, Memory>
    ensures { IfOk result (λ forms. forms.items ≡ left_forms (rules_in entries.now)) }
{
    let mut forms = Vec::new(alloc);
    for entry in entries {
        forms.push(form_of(entry.left.as_slice()))?;
    }
    Ok(forms)
}

/// The hash of the left side of the entry that a family raises, with 0 for 8-bit numbers.
fn raised_form(entries: &[Entry], family: &Family) -> usize
    ensures { result ≡ raised_form (entry_at (map rule_of entries.now) family.now.entry) }
{
    match entry_at(entries, family.entry) {
        None => 0,
        Some(entry) => form_of(blind_all(entry.left.as_slice()).as_slice()),
    }
}

/// These hashes of families.
pub(crate) fn raised_forms(
    alloc: Global,
    entries: &[Entry],
    families: &[Family],
) -> Result<Vec<usize>, Memory>
    ensures { IfOk result (λ forms. forms.items ≡ raised_forms (map rule_of entries.now) (map family_of families.now)) }
{
    let mut forms = Vec::new(alloc);
    for family in families {
        forms.push(raised_form(entries, family))?;
    }
    Ok(forms)
}

impl Form {
    /// The form of a window after which these items are live: None only where no left side can stand in it.
    pub(crate) fn of(window: &[Instr], live: Items) -> Option<Form>
        requires { list_all is_in_window window.now ≡ true }
        ensures none { IfNone result ((rule : Rule) (registers : List LowRegister) → IsSoundRule rule → IsCanonicalSide rule.left → Stands rule registers window.now → ⊥) }
        ensures some { IfSome result (IsForm window.now) }
        ensures live { IfSome result (λ f. f.live ≡ live) }
    {
        match canonical(window, live) {
            None => None,
            Some((side, map, mask)) => {
                let number = form_of(side.as_slice());
                Some(Form {
                    side,
                    number,
                    registers: registers_of(&map),
                    live,
                    mask,
                })
            }
        }
    }

    /// Whether the mask of an entry has all items that it must have for the entry to fit.
    pub(crate) fn may_fit(&self, mask: Mask) -> bool
        ensures { (result ≡ true) ↔ ((x : ℕ) → has self.now.mask.items.bits x ≡ true → has mask.items.bits x ≡ true) }
    {
        self.mask.items.bits & mask.items.bits == self.mask.items.bits
    }
}
