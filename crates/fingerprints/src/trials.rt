//! Sequences are run from all listed states and compared with the left side, whose end states are computed once.
ghost use Rattle.std.specs.Prelude.{◌≡◌, ◌<◌, ◌≤◌, ◌+◌, ◌*◌, ◌↔◌, Any, IfOk, OnOk, IsTrue, length, map};
ghost use Rattle.thumb_model.specs.Effect.{after_all, AreOver};
ghost use Rattle.window_exec.specs.State.{values_of, seen, Differ};
ghost use Rattle.step_ledger.specs.Counts.{RisesBy};
ghost use Rattle.fingerprints.specs.Trials.{AreTrials};

use std::alloc::{AllocError, Global};
use step_ledger::{Ledger, Steps};
use thumb_instr::{Instr, Mask};
use window_exec::{WState, differ, step};

/// A listed state, and the state in which the left side, started in it, ends.
#[derive(Clone, Copy)]
pub struct Trial {
    pub start: WState,
    pub end: WState,
}

/// The state after instructions of a window that name only r0 to r3. Each instruction counts one step.
pub fn run<L: Ledger>(instrs: &[Instr], mut state: WState, steps: &mut Steps<L>) -> WState
    requires { AreOver 4 instrs.now }
    ensures end { values_of result ≡ after_all instrs.now (values_of state) }
    ensures count { RisesBy steps.old steps.new (length instrs.now) }
{
    for instr in instrs {
        steps.tick();
        state = step(instr, state);
    }
    state
}

/// Each state with the left side's end state. Each instruction that is run counts one step.
pub fn trials_of<L: Ledger>(
    alloc: Global,
    left: &[Instr],
    states: &[WState],
    steps: &mut Steps<L>,
) -> Result<Vec<Trial>, AllocError>
    requires { AreOver 4 left.now }
    ensures trials { IfOk result (λ trials. AreTrials left.now (map seen states.now) trials.items) }
    ensures count { OnOk result (RisesBy steps.old steps.new (length states.now * length left.now)) }
    ensures cost { steps.new ≤ steps.old + length states.now * length left.now }
{
    let mut trials = Vec::with_capacity(alloc, states.len())?;
    for state in states {
        let end = run(left, *state, steps);
        trials.push(Trial { start: *state, end })?;
    }
    Ok(trials)
}

/// Whether from some state a sequence leaves a value other than the left side's in some item of the mask. The states are tried from the
/// last to the first: those that were found for similar sequences tell most often.
pub fn is_told<L: Ledger>(
    trials: &[Trial],
    instrs: &[Instr],
    mask: Mask,
    steps: &mut Steps<L>,
) -> bool
    requires { AreOver 4 instrs.now }
    ensures told { IsTrue result ↔ Any (λ t. Differ (values_of t.end) (after_all instrs.now (values_of t.start)) mask.items.bits) trials.now }
    ensures cost { steps.new ≤ steps.old + length trials.now * length instrs.now }
{
    for passed in 0..trials.len() {
        let trial = &trials[trials.len() - 1 - passed];
        let end = run(instrs, trial.start, steps);
        if differ(&trial.end, &end, mask) {
            return true;
        }
    }
    false
}
