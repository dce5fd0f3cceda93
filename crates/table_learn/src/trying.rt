//! Tries one sequence below a window: first on the listed states, then by the solver.
ghost use Rattle.std.specs.Prelude.{◌≡◌, ◌<◌, ◌≤◌, ◌+◌, ◌*◌, OnOk, IfOk, length, map};
ghost use Rattle.std.specs.List.{list_any};
ghost use Rattle.thumb_model.specs.Effect.{AreOver};
ghost use Rattle.bit_blast.specs.Exactness.{IsMaskOver};
ghost use Rattle.window_exec.specs.State.{seen};
ghost use Rattle.table_audit.specs.Shorter.{alphabet_registers};
ghost use Rattle.table_learn.specs.Tellings.{tells_apart};
ghost use Rattle.table_learn.specs.Searching.{query_cost};
ghost use Rattle.table_learn.specs.Given.{settings_of};
ghost use Rattle.table_learn.specs.Found.{IsAnswer, IsFinding, window_in};

use crate::settings::Settings;
use crate::window::Window;
use bit_blast::{formula, state_of};
use cdcl_core::{Verdict, solve};
use lrat_check::Line;
use std::alloc::{AllocError, Global};
use step_ledger::{Ledger, Steps};
use thumb_instr::{Mask, Seq};
use window_exec::{WState, tells};

/// What trying a sequence below a window found.
#[derive(Drop)]
pub(crate) enum Finding {
    /// A listed state distinguishes it from the window.
    Told,
    /// This state, which the solver found, distinguishes it from the window.
    State(WState),
    /// No state does, as the proof shows.
    Proof(Vec<Line>),
    /// The solver spent its budget on it, with this log.
    Log(Vec<Line>),
}

/// Counts so many steps.
pub(crate) fn count_steps<L: Ledger>(count: usize, steps: &mut Steps<L>)
    ensures { steps.new ≤ steps.old + count }
{
    for _step in 0..count {
        steps.tick();
    }
}

/// Whether some of the states distinguishes two sequences under a mask. The states are tried from the last to the first, since those that were found for
/// similar sequences succeed most often.
pub(crate) fn is_told<L: Ledger>(
    states: &[WState],
    left: &Seq,
    right: &Seq,
    mask: Mask,
    steps: &mut Steps<L>,
) -> bool
    requires left { AreOver 4 left.now }
    requires right { AreOver 4 right.now }
    ensures told { result ≡ list_any (λ s. tells_apart left.now right.now mask.items.bits (seen s)) states.now }
    ensures cost { steps.new ≤ steps.old + length states.now * (length left.now + length right.now) }
{
    for passed in 0..states.len() {
        let state = &states[states.len() - 1 - passed];
        count_steps(left.len() + right.len(), steps);
        if tells(state, left, right, mask) {
            return true;
        }
    }
    false
}

/// What the solver finds about a sequence that no listed state distinguishes from the window.
fn ask<L: Ledger>(
    alloc: Global,
    window: &Window,
    seq: &Seq,
    budget: u32,
    steps: &mut Steps<L>,
) -> Result<Finding, AllocError>
    requires few { window.now.k ≤ 4 }
    requires left { AreOver window.now.k window.now.left }
    requires right { AreOver window.now.k seq.now }
    requires mask { IsMaskOver window.now.k window.now.mask.items.bits }
    ensures answer { IfOk result (IsAnswer budget window.now seq.now) }
    ensures cost { OnOk result (steps.new ≤ steps.old + (budget + 1) * 200001) }
{
    let formula = formula(alloc, &window.left, seq, window.mask, window.k)?;
    if formula.clauses() + u64::from(budget) > u64::from(u32::MAX) {
        return Err(AllocError);
    }
    match solve(alloc, &formula, budget, steps)? {
        Verdict::Sat(model) => Ok(Finding::State(state_of(&model, window.k))),
        Verdict::Unsat(log) => Ok(Finding::Proof(log)),
        Verdict::Spent(log) => Ok(Finding::Log(log)),
    }
}

/// Tries a sequence that is no longer than the window: it is run on the listed states, and if none distinguishes it, the solver is asked.
pub(crate) fn try_sequence<L: Ledger>(
    alloc: Global,
    states: &[WState],
    window: &Window,
    seq: &Seq,
    settings: &Settings,
    steps: &mut Steps<L>,
) -> Result<Finding, AllocError>
    requires few { window.now.k ≤ 4 }
    requires counted { window.now.k ≡ alphabet_registers (settings_of settings.now) window.now.left }
    requires left { AreOver window.now.k window.now.left }
    requires right { AreOver window.now.k seq.now }
    requires no_longer { length seq.now ≤ length window.now.left }
    requires mask { IsMaskOver window.now.k window.now.mask.items.bits }
    ensures found { IfOk result (IsFinding (settings_of settings.now) (map seen states.now) (window_in window.now) seq.now) }
    ensures cost { OnOk result (steps.new ≤ steps.old + query_cost settings.now.budget (length states.now) (length window.now.left)) }
{
    if is_told(states, &window.left, seq, window.mask, steps) {
        return Ok(Finding::Told);
    }
    ask(alloc, window, seq, settings.budget, steps)
}
