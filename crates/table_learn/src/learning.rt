//! The learner's one call: it learns an entry for each window in turn, and keeps the states that the solver finds, until the table's text is too long.
ghost use Rattle.std.specs.Prelude.{◌≡◌, ◌<◌, ◌≤◌, ◌+◌, ◌-◌, ◌*◌, ◌∷◌, ◌++◌, [], List, IfErr, IfOk, OnOk, drop, length, map};
ghost use Rattle.ascii_scan.specs.Lines.{text_limit};
ghost use Rattle.rule_table.specs.Table.{IsTable};
ghost use Rattle.window_exec.specs.State.{seen};
ghost use Rattle.rule_table.specs.Text.{rule_items};
ghost use Rattle.rule_table.specs.Views.{rule_of, table_of};
ghost use Rattle.table_audit.specs.Shorter.{alphabet_registers};
ghost use Rattle.table_audit.specs.Acceptance.{widest, width_of};
ghost use Rattle.table_learn.specs.Learnt.{Window as Model, Learnt, text_length};
ghost use Rattle.table_learn.specs.Given.{settings_of, window_of, AreInLimits, AreWindows, IsWindow};
ghost use Rattle.table_learn.specs.Found.{window_in};
ghost use Rattle.table_learn.specs.Failing.{FailsAs, SpendsAs, learn_cost};
ghost use Rattle.table_learn.specs.Lengths.{lines_length};
ghost use Rattle.table_learn.specs.Progress.{HasLearnt, table_with, search_cost, drop_cost};

use crate::dropping::drop_all_told;
use crate::errors::LearnError;
use crate::keeping::candidates;
use crate::lengths::{entry_length, plus, times};
use crate::searching::search;
use crate::settings::Settings;
use crate::window::Window;
use ascii_scan::TEXT_LIMIT;
use fingerprints::{Tables, seeded};
use rule_table::{Entry, Table, write_table};
use std::alloc::{AllocError, Global};
use std::mem;
use step_ledger::{Ledger, Steps};
use table_audit::{WIDEST, width, with_scratch};
use thumb_instr::{Mask, Seq};
use window_exec::{States, WState};

/// How many bytes the line of a state has, with its newline.
const STATE_LINE: u64 = 44;

/// What was learnt from the windows so far: the listed states, the entries, the length in bytes of their table's text, and the
/// tables of outcomes.
#[derive(Drop)]
pub(crate) struct Learner {
    pub states: Vec<WState>,
    pub entries: Vec<Entry>,
    pub bytes: u64,
    pub tables: Tables,
}

/// The table of states and entries.
fn table_of(alloc: Global, settings: Settings, states: Vec<WState>, entries: Vec<Entry>) -> Table
    ensures { table_of result ≡ table_with (settings_of settings) (map seen states.items) (map rule_of entries.items) }
{
    Table::new(settings, States::new(states), entries, Vec::new(alloc))
}

/// The learner before the first window, with the states of the seed alone.
fn begin(alloc: Global, settings: Settings) -> Result<(Settings, Learner), AllocError>
    requires limits { AreInLimits (settings_of settings) }
    ensures same { IfOk result (λ r. settings_of r.0 ≡ settings_of settings) }
    ensures begun { IfOk result (λ r. HasLearnt (settings_of settings) [] r.1) }
    ensures short { IfOk result (λ r. r.1.bytes ≤ text_limit) }
{
    let states = seeded(alloc, settings.seed)?.into_vec();
    let table = table_of(alloc, settings, states, Vec::new(alloc));
    let bytes = write_table(alloc, &table)?.len() as u64;
    let (settings, states, entries, _none) = table.into_parts();
    let learner = Learner {
        states: states.into_vec(),
        entries,
        bytes,
        tables: Tables::new(),
    };
    Ok((settings, learner))
}

/// The states after the first `count`.
fn behind(states: &[WState], count: usize) -> &[WState]
    requires { count ≤ length states.now }
    ensures { result.now ≡ drop count states.now }
{
    let (_, rest) = states.split_at(count);
    rest
}

/// How many bytes the lines of an entry and of `states` states have.
fn lines_of(alloc: Global, entry: &Entry, states: u64) -> Result<u64, AllocError>
    ensures { IfOk result (λ n. n ≡ lines_length (rule_items (rule_of entry.now)) + states * 44) }
{
    plus(entry_length(alloc, entry)?, times(states, STATE_LINE)?)
}

/// Learns one more window. A learner for which memory was refused is of no use.
fn learn_window<L: Ledger>(
    alloc: Global,
    settings: &Settings,
    learner: &mut Learner,
    window: Window,
    steps: &mut Steps<L>,
) -> Result<(), AllocError>
    requires some { 0 < window.k }
    requires few { window.k ≤ 4 }
    requires counted { window.k ≡ alphabet_registers (settings_of settings.now) window.left }
    requires limits { AreInLimits (settings_of settings.now) }
    requires window { IsWindow (settings_of settings.now) (window_in window) }
    requires narrow { width_of (settings_of settings.now) ≤ widest }
    requires before { (windows : List Model) × HasLearnt (settings_of settings.now) windows learner.old }
    ensures learnt { (windows : List Model) → HasLearnt (settings_of settings.now) windows learner.old → OnOk result (HasLearnt (settings_of settings.now) (windows ++ window_in window ∷ []) learner.new) }
    ensures grown { OnOk result (length learner.old.states.items ≤ length learner.new.states.items) }
    ensures cost { OnOk result (steps.new ≤ steps.old + search_cost (settings_of settings.now) (length learner.new.states.items)
        + drop_cost (settings_of settings.now) (length learner.new.entries.items) (length learner.new.states.items - length learner.old.states.items)) }
{
    let before = learner.states.len();
    let list = candidates(
        alloc,
        &mut learner.tables,
        &window,
        settings,
        &learner.states,
        steps,
    )?;
    let entry = search(alloc, settings, window, &list, &mut learner.states, steps)?;
    learner.tables.put(list.outcomes);
    let found = behind(&learner.states, before);
    let lines = lines_of(alloc, &entry, found.len() as u64)?;
    let whole = plus(learner.bytes, lines)?;
    learner.entries.push(entry)?;
    let entries = mem::replace(&mut learner.entries, Vec::new(alloc));
    let (entries, freed) = drop_all_told(alloc, settings, entries, found, steps)?;
    learner.entries = entries;
    learner.bytes = whole - freed;
    Ok(())
}

/// Learns a table from windows, each with the items that may be live after it.
///
/// For each window in turn, the sequences below it are tried: those over its registers, a scratch register if the settings allow one, and the pool,
/// that are shorter than it, or with costs cheaper and no longer. They are tried by length or cost, then by number. A sequence that a listed state
/// distinguishes from the window is skipped. For any other one the solver is asked. It may find a state that distinguishes the two, which is listed
/// from then on; or a proof that none does, and then the sequence is the right side; or it spends its budget, and then the sequence is left open.
/// If no sequence is left, the right side is the window itself. Open numbers are dropped if their sequences aren't below the right side, or if a
/// state listed later distinguishes them.
///
/// `Wide` is returned if more than 5,000,000 sequences are shorter than the longest windows, or with costs no longer than these; `Full` at the first
/// window after which the table's text has more than `ascii_scan::TEXT_LIMIT` bytes. A step is an instruction that is run on a listed state, a sequence whose
/// outcome is worked out, or a decision or a conflict of the solver.
pub fn learn<L: Ledger>(
    alloc: Global,
    windows: Vec<(Seq, Mask)>,
    settings: Settings,
    steps: &mut Steps<L>,
) -> Result<Table, LearnError>
    requires settings { AreInLimits (settings_of settings) }
    requires windows { AreWindows (settings_of settings) (map window_of windows.items) }
    ensures learnt { IfOk result (λ t. Learnt (settings_of settings) (map window_of windows.items) (table_of t)) }
    ensures valid { IfOk result (λ t. IsTable (table_of t)) }
    ensures fits { IfOk result (λ t. text_length (table_of t) ≤ text_limit) }
    ensures fails { IfErr result (FailsAs (settings_of settings) (map window_of windows.items)) }
    ensures cost { IfOk result (λ t. steps.new ≤ steps.old + learn_cost (settings_of settings) (length windows.items) (length (table_of t).states)) }
    ensures spends { IfErr result (SpendsAs (settings_of settings) (length windows.items) steps.old steps.new) }
{
    let registers = with_scratch(settings.regs, settings.scratch);
    let width = width(&settings.costs, registers, &settings.pool, settings.left);
    if width > WIDEST {
        return Err(LearnError::Wide(width));
    }
    let (settings, mut learner) = begin(alloc, settings)?;
    for (left, mask) in &windows {
        let window = Window::new(left, *mask, &settings);
        learn_window(alloc, &settings, &mut learner, window, steps)?;
        if learner.bytes > TEXT_LIMIT as u64 {
            let bytes = learner.bytes;
            let table = table_of(alloc, settings, learner.states, learner.entries);
            return Err(LearnError::Full { table, bytes });
        }
    }
    Ok(table_of(alloc, settings, learner.states, learner.entries))
}
