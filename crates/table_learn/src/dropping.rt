//! Drops open numbers, with their logs, whose sequences a state that was found later distinguishes from the window.
ghost use Rattle.std.specs.Prelude.{◌≡◌, ◌<◌, ◌≤◌, ◌+◌, ◌*◌, All, IfOk, OnOk, filter, length, map};
ghost use Rattle.window_exec.specs.State.{seen};
ghost use Rattle.thumb_model.specs.Effect.{AreOver};
ghost use Rattle.rule_table.specs.Table.{Rule};
ghost use Rattle.rule_table.specs.Views.{opened_of, rule_of};
ghost use Rattle.table_audit.specs.Shorter.{alphabet_registers, below_at};
ghost use Rattle.table_learn.specs.Given.{settings_of};
ghost use Rattle.table_learn.specs.Fitness.{tells_number, without_told};
ghost use Rattle.table_learn.specs.Lengths.{rules_length};
ghost use Rattle.table_learn.specs.Searching.{is_below};
ghost use Rattle.table_learn.specs.Dropping.{IsSided, Dropped, runs_on};

use crate::lengths::{open_length, plus};
use crate::settings::Settings;
use crate::trying::is_told;
use crate::window::Window;
use rule_table::{Entry, Open};
use std::alloc::{AllocError, Global};
use step_ledger::{Ledger, Steps};
use thumb_instr::Seq;
use window_exec::WState;

/// Those of the open numbers whose sequences are below the right side: shorter, or with costs cheaper.
pub(crate) fn keep_below(
    alloc: Global,
    settings: &Settings,
    window: &Window,
    right: &Seq,
    opens: Vec<Open>,
) -> Result<Vec<Open>, AllocError>
    requires some { 0 < window.now.k }
    requires few { window.now.k ≤ 4 }
    requires counted { window.now.k ≡ alphabet_registers (settings_of settings.now) window.now.left }
    ensures { IfOk result (λ kept. map opened_of kept.items ≡ filter (is_below (settings_of settings.now) window.now.left right.now) (map opened_of opens.items)) }
{
    let mut kept = Vec::new(alloc);
    for name in opens {
        if window.below_at(settings, right, name.number).is_some() {
            kept.push(name)?;
        }
    }
    Ok(kept)
}

/// Whether the sequence of this number is below the right side and one of the states distinguishes it from the window.
fn tells_open<L: Ledger>(
    settings: &Settings,
    found: &[WState],
    window: &Window,
    right: &Seq,
    number: u64,
    steps: &mut Steps<L>,
) -> bool
    requires some { 0 < window.now.k }
    requires few { window.now.k ≤ 4 }
    requires counted { window.now.k ≡ alphabet_registers (settings_of settings.now) window.now.left }
    requires left { AreOver 4 window.now.left }
    ensures told { (e : Rule) → e.left ≡ window.now.left → e.mask ≡ window.now.mask.items.bits → e.right ≡ right.now → result ≡ tells_number (map seen found.now) e (below_at (settings_of settings.now) e.left e.right number) }
    ensures cost { steps.new ≤ steps.old + length found.now * (length window.now.left + length window.now.left) }
{
    match window.below_at(settings, right, number) {
        Some(seq) => is_told(found, &window.left, &seq, window.mask, steps),
        None => false,
    }
}

/// The entry without the open numbers whose sequences one of the states distinguishes from the left side, and how many bytes shorter its text is.
fn drop_told<L: Ledger>(
    alloc: Global,
    settings: &Settings,
    entry: Entry,
    found: &[WState],
    steps: &mut Steps<L>,
) -> Result<(Entry, u64), AllocError>
    requires { IsSided (rule_of entry) }
    ensures dropped { IfOk result (λ r. Dropped (settings_of settings.now) (map seen found.now) (rule_of entry) (rule_of r.0) r.1) }
    ensures cost { OnOk result (steps.new ≤ steps.old + length entry.opens.items * (length found.now * (length entry.left + length entry.left))) }
{
    let Entry {
        left,
        right,
        mask,
        opens,
        proof,
    } = entry;
    let window = Window::new(&left, mask, settings);
    let mut kept = Vec::new(alloc);
    let mut freed = 0;
    for name in opens {
        if tells_open(settings, found, &window, &right, name.number, steps) {
            freed = plus(freed, open_length(&name)?)?;
        } else {
            kept.push(name)?;
        }
    }
    let entry = Entry {
        left,
        right,
        mask,
        opens: kept,
        proof,
    };
    Ok((entry, freed))
}

/// The entries without the open numbers whose sequences one of the found states distinguishes, and how many bytes shorter their text is.
pub(crate) fn drop_all_told<L: Ledger>(
    alloc: Global,
    settings: &Settings,
    entries: Vec<Entry>,
    found: &[WState],
    steps: &mut Steps<L>,
) -> Result<(Vec<Entry>, u64), AllocError>
    requires { All IsSided (map rule_of entries.items) }
    ensures kept { IfOk result (λ r. map rule_of r.0.items ≡ map (without_told (settings_of settings.now) (map seen found.now)) (map rule_of entries.items)) }
    ensures freed { IfOk result (λ r. rules_length (map rule_of r.0.items) + r.1 ≡ rules_length (map rule_of entries.items)) }
    ensures cost { OnOk result (steps.new ≤ steps.old + runs_on (length found.now) (map rule_of entries.items)) }
{
    if found.is_empty() {
        return Ok((entries, 0));
    }
    let mut kept = Vec::with_capacity(alloc, entries.len())?;
    let mut freed = 0;
    for entry in entries {
        let (entry, less) = drop_told(alloc, settings, entry, found, steps)?;
        freed = plus(freed, less)?;
        kept.push(entry)?;
    }
    Ok((kept, freed))
}
