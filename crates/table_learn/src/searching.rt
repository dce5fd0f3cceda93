//! Searches the right side of a window: the first sequence below it that is proved to have the same effect.
ghost use Rattle.std.specs.Prelude.{◌≡◌, ◌<◌, ◌≤◌, ◌+◌, ◌*◌, true, IfOk, OnOk, length, map};
ghost use Rattle.window_exec.specs.State.{seen};
ghost use Rattle.seq_enum.specs.Alphabet.{ascends_from, alphabet};
ghost use Rattle.rule_table.specs.Table.{numbers_of};
ghost use Rattle.rule_table.specs.Views.{opened_of, rule_of};
ghost use Rattle.table_audit.specs.Shorter.{alphabet_registers, IsBelow};
ghost use Rattle.table_learn.specs.Given.{settings_of, IsWindow};
ghost use Rattle.table_learn.specs.Learnt.{learnt_from};
ghost use Rattle.table_learn.specs.Fitness.{IsFit};
ghost use Rattle.table_learn.specs.Found.{window_in};
ghost use Rattle.table_learn.specs.Searching.{AreCandidates, IsGrown, EarnedFrom, put_in, query_cost};
ghost use Rattle.table_learn.specs.Tried.{Tried};

use crate::dropping::keep_below;
use crate::keeping::ShortList;
use crate::settings::Settings;
use crate::trying::{Finding, try_sequence};
use crate::window::{Window, copied};
use lrat_check::Line;
use rule_table::{Entry, Open};
use std::alloc::{AllocError, Global};
use step_ledger::{Ledger, Steps};
use thumb_instr::Seq;
use window_exec::WState;

/// A sequence below a window that is to be tried, and its number.
#[derive(Drop)]
struct Candidate {
    number: u64,
    seq: Seq,
}

/// Inserts an open number into others that are in ascending order.
fn put_in(opens: &mut Vec<Open>, name: Open) -> Result<(), AllocError>
    requires { ascends_from 0 (numbers_of (map opened_of opens.old.items)) ≡ true }
    ensures { IfOk result (λ _. map opened_of opens.new.items ≡ put_in (opened_of name) (map opened_of opens.old.items)) }
{
    let place = opens.partition_point(|open| open.number < name.number);
    opens.insert(place, name)?;
    Ok(())
}

/// Tries a candidate. If the solver finds a state that distinguishes it, the state is listed; if the solver spends its budget, the number is added to
/// `opens`. Returns the sequence with its proof if no state distinguishes it.
fn try_candidate<L: Ledger>(
    alloc: Global,
    settings: &Settings,
    window: &Window,
    candidate: Candidate,
    states: &mut Vec<WState>,
    opens: &mut Vec<Open>,
    steps: &mut Steps<L>,
) -> Result<Option<(Seq, Vec<Line>)>, AllocError>
    requires few { window.now.k ≤ 4 }
    requires counted { window.now.k ≡ alphabet_registers (settings_of settings.now) window.now.left }
    requires window { IsWindow (settings_of settings.now) (window_in window.now) }
    requires candidate { IsBelow (settings_of settings.now) window.now.left window.now.left candidate.number candidate.seq }
    requires ascending { ascends_from 0 (numbers_of (map opened_of opens.old.items)) ≡ true }
    ensures tried { IfOk result (Tried (settings_of settings.now) (window_in window.now) (map seen states.old.items) (map opened_of opens.old.items) (map seen states.new.items) (map opened_of opens.new.items) candidate.number) }
    ensures more { OnOk result (length states.old.items ≤ length states.new.items) }
    ensures cost { OnOk result (steps.new ≤ steps.old + query_cost settings.now.budget (length states.new.items) (length window.now.left)) }
{
    let Candidate { number, seq } = candidate;
    match try_sequence(alloc, states, window, &seq, settings, steps)? {
        Finding::Told => {}
        Finding::State(state) => states.push(state)?,
        Finding::Log(log) => put_in(opens, Open { number, log })?,
        Finding::Proof(proof) => return Ok(Some((seq, proof))),
    }
    Ok(None)
}

/// The entry of a window. Each sequence below the window that isn't in the list has to be distinguished by a listed state. The states that the solver
/// finds are appended to the listed ones.
pub(crate) fn search<L: Ledger>(
    alloc: Global,
    settings: &Settings,
    window: Window,
    list: &ShortList,
    states: &mut Vec<WState>,
    steps: &mut Steps<L>,
) -> Result<Entry, AllocError>
    requires some { 0 < window.k }
    requires few { window.k ≤ 4 }
    requires counted { window.k ≡ alphabet_registers (settings_of settings.now) window.left }
    requires window { IsWindow (settings_of settings.now) (window_in window) }
    requires alphabet { list.now.outcomes.alphabet ≡ alphabet window.k settings.now.pool }
    requires candidates { AreCandidates (settings_of settings.now) (map seen states.old.items) (window_in window) list.now.numbers.items }
    ensures grown { OnOk result (IsGrown (map seen states.old.items) (map seen states.new.items)) }
    ensures earned { OnOk result (EarnedFrom (settings_of settings.now) (length states.old.items) (map seen states.new.items) (window_in window)) }
    ensures window { IfOk result (λ e. learnt_from (rule_of e) ≡ window_in window) }
    ensures fits { IfOk result (λ e. IsFit (settings_of settings.now) (map seen states.new.items) (map seen states.old.items) (rule_of e)) }
    ensures cost { OnOk result (steps.new ≤ steps.old + length list.now.numbers.items * query_cost settings.now.budget (length states.new.items) (length window.left)) }
{
    let mut opens = Vec::new(alloc);
    for number in &list.numbers {
        let Some(seq) = list.outcomes.sequence_at(*number) else {
            unreachable!();
        };
        let candidate = Candidate {
            number: *number,
            seq,
        };
        if let Some((right, proof)) = try_candidate(
            alloc, settings, &window, candidate, states, &mut opens, steps,
        )? {
            let opens = keep_below(alloc, settings, &window, &right, opens)?;
            return Ok(Entry {
                left: window.left,
                right,
                mask: window.mask,
                opens,
                proof,
            });
        }
    }
    Ok(Entry {
        right: copied(&window.left),
        left: window.left,
        mask: window.mask,
        opens,
        proof: Vec::new(alloc),
    })
}
