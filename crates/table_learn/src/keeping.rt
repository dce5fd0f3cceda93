//! Tables of the outcome of each sequence from the first listed state, kept from window to window: one for each count of registers, as long as the
//! windows so far needed.
//!
//! The first state distinguishes nearly all sequences from a window; the few that are left are run on the other listed states. So states that are
//! listed later need no tables.
ghost use Rattle.std.specs.Prelude.{◌≡◌, ◌<◌, ◌≤◌, ◌+◌, IfOk, length, map};
ghost use Rattle.thumb_model.specs.Effect.{AreOver};
ghost use Rattle.window_exec.specs.State.{seen};
ghost use Rattle.table_audit.specs.Shorter.{alphabet_registers};
ghost use Rattle.table_learn.specs.Given.{settings_of, IsWindow};
ghost use Rattle.table_learn.specs.Found.{window_in};
ghost use Rattle.table_audit.specs.Acceptance.{lengths_below};
ghost use Rattle.table_learn.specs.Searching.{AreCandidates, width_at};
ghost use Rattle.table_learn.specs.Keeping.{AreKept, IsOfFirst};

use crate::ordering::in_order;
use crate::settings::{Settings, hold};
use crate::window::Window;
use fingerprints::{Outcomes, Tables, Trial};
use std::alloc::{AllocError, Global};
use step_ledger::{Ledger, Steps};
use window_exec::{WState, run_seq};

/// The sequences below a window that are to be tried: their numbers, and the table in which each is found by its number.
#[derive(Drop)]
pub(crate) struct ShortList {
    pub numbers: Vec<u64>,
    pub outcomes: Outcomes,
}

/// The sequences below a window that the first listed state doesn't distinguish from it, in the order in which they are tried. Each sequence that is
/// added to the table of the window's registers counts as a step. The table is taken out of the kept ones; the caller puts it back afterwards.
pub(crate) fn candidates<L: Ledger>(
    alloc: Global,
    tables: &mut Tables,
    window: &Window,
    settings: &Settings,
    states: &[WState],
    steps: &mut Steps<L>,
) -> Result<ShortList, AllocError>
    requires some { 0 < window.now.k }
    requires few { window.now.k ≤ 4 }
    requires counted { window.now.k ≡ alphabet_registers (settings_of settings.now) window.now.left }
    requires left { AreOver 4 window.now.left }
    requires window { IsWindow (settings_of settings.now) (window_in window.now) }
    requires short { lengths_below (settings_of settings.now).costs (length window.now.left) ≤ 5 }
    requires states { 0 < length states.now }
    requires kept { AreKept settings.now.pool (map seen states.now) tables.old }
    ensures kept { AreKept settings.now.pool (map seen states.now) tables.new }
    ensures outcomes { IfOk result (λ list. IsOfFirst window.now.k settings.now.pool (map seen states.now) list.outcomes) }
    ensures candidates { IfOk result (λ list. AreCandidates (settings_of settings.now) (map seen states.now) (window_in window.now) list.numbers.items) }
    ensures cost { steps.new ≤ steps.old + width_at (settings_of settings.now) (window_in window.now) }
{
    hold(settings);
    let start = states[0];
    let trial = Trial {
        start,
        end: run_seq(&window.left, start),
    };
    let mut outcomes = tables.take(alloc, window.k, &settings.pool, start)?;
    let longest = window.longest_below(settings);
    let found = fingerprints::candidates(
        alloc,
        &mut outcomes,
        longest,
        &[trial],
        window.mask,
        steps,
    )?;
    let numbers = in_order(alloc, settings, window, &outcomes, found)?;
    Ok(ShortList { numbers, outcomes })
}
