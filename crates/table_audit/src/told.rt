//! Each sequence below the right side is named open, or a state tells it: both sequences run from it differ under the mask. The first state tells nearly all,
//! by a table of outcomes; the rest are run on all states. Where that table would be far longer than the list of sequences below, those are run at once.
ghost use Rattle.std.specs.Prelude.{◌≡◌, ℕ, ◌<◌, ◌≤◌, ◌+◌, ◌*◌, ◌↔◌, true, false, List, None, Some, IfOk, OnOk, IsTrue, MatchOption, length, map};
ghost use Rattle.thumb_model.specs.Effect.{AreOver};
ghost use Rattle.window_exec.specs.declared.state.WState.{WState as State};
ghost use Rattle.window_exec.specs.State.{seen, Seen};
ghost use Rattle.seq_enum.specs.Alphabet.{ascends_from, alphabet};
ghost use Rattle.fingerprints.specs.Trials.{AreTrials};
ghost use Rattle.fingerprints.specs.Tables.{AreTables, IsFor};
ghost use Rattle.rule_table.specs.Table.{IsTable, numbers_of};
ghost use Rattle.rule_table.specs.Views.{header_in, opened_of, rule_of, table_of};
ghost use Rattle.lrat_check.specs.Proofs.{Answers};
ghost use Rattle.table_audit.specs.declared.errors.AuditError.TheVariants.{Memory, Entry as OfEntry};
ghost use Rattle.table_audit.specs.declared.errors.EntryFault.TheVariants.{Untold};
ghost use Rattle.table_audit.specs.Canonical.{HasFormula};
ghost use Rattle.table_audit.specs.Shorter.{below, IsTold, is_named, alphabet_registers};
ghost use Rattle.table_audit.specs.Naming.{first_of};
ghost use Rattle.table_audit.specs.Lighter.{CoverUntold};
ghost use Rattle.table_audit.specs.Acceptance.{lengths_below, ToldVerdict};

use crate::errors::{AuditError, EntryFault};
use crate::lighter::few_lighter;
use crate::sides::alphabet_registers;
use fingerprints::{Outcomes, Tables, Trial, candidates, is_told};
use rule_table::{Entry, Open, Table};
use seq_enum::weight;
use std::alloc::{AllocError, Global};
use step_ledger::{Ledger, Steps};
use thumb_instr::Seq;
use window_exec::WState;

/// Whether a number is named open, by binary search: the numbers named open are in ascending order.
fn is_named(opens: &[Open], number: u64) -> bool
    requires { ascends_from 0 (numbers_of (map opened_of opens.now)) ≡ true }
    ensures { result ≡ is_named (map opened_of opens.now) number }
{
    let place = opens.partition_point(|open| open.number < number);
    match opens.get(place) {
        None => false,
        Some(open) => open.number == number,
    }
}

/// The first of some states, or the state of zeros where there is none.
fn first_of(states: &[WState]) -> WState
    ensures { result ≡ first_of states.now }
{
    match states {
        [] => { WState { r: [0; 4], nzcv: 0 } }
        [first, ..] => *first,
    }
}

/// Whether a sequence isn't named open, and no state tells it from the left side.
fn is_untold<L: Ledger>(
    entry: &Entry,
    number: u64,
    seq: &Seq,
    trials: &[Trial],
    steps: &mut Steps<L>,
) -> bool
    requires ascending { ascends_from 0 (numbers_of (map opened_of entry.now.opens.items)) ≡ true }
    requires over { AreOver 4 seq.now }
    ensures untold { (states : List Seen) → AreTrials entry.now.left states trials.now
        → IsTrue result ↔ (is_named (map opened_of entry.now.opens.items) number ≡ false) × (IsTold states entry.now.left seq.now entry.now.mask.items.bits → ⊥) }
    ensures cost { steps.new ≤ steps.old + length trials.now * length seq.now }
{
    !is_named(&entry.opens, number) && !is_told(trials, seq.as_slice(), entry.mask, steps)
}

/// The number of the first sequence below the right side, by weight and then by number, that isn't named open and that no state tells from the left side,
/// where the numbers given, in ascending order, include all such.
fn first_untold<L: Ledger>(
    table: &Table,
    entry: &Entry,
    outcomes: &Outcomes,
    numbers: &[u64],
    trials: &[Trial],
    steps: &mut Steps<L>,
) -> Option<u64>
    requires alphabet { outcomes.now.alphabet ≡ alphabet (alphabet_registers (header_in table.now) entry.now.left) table.now.pool }
    requires few { length entry.now.left ≤ 5 }
    requires ascending { ascends_from 0 (numbers_of (map opened_of entry.now.opens.items)) ≡ true }
    requires trials { AreTrials entry.now.left (map seen table.now.states) trials.now }
    requires numbers { CoverUntold (table_of table.now) (rule_of entry.now) numbers.now }
    ensures verdict { (number : ℕ) → MatchOption result (ToldVerdict (table_of table.now) number (rule_of entry.now) None)
        (λ q. ToldVerdict (table_of table.now) number (rule_of entry.now) (Some (OfEntry number (Untold q)))) }
    ensures cost { steps.new ≤ steps.old + length (below (header_in table.now) entry.now.left entry.now.right) * (length table.now.states * length entry.now.left) }
{
    let mut first = None;
    let mut limit = weight(&table.costs, &entry.right);
    for number in numbers {
        let Some(seq) = outcomes.sequence_at(*number) else {
            unreachable!();
        };
        let weight = weight(&table.costs, &seq);
        if weight < limit && is_untold(entry, *number, &seq, trials, steps) {
            first = Some(*number);
            limit = weight;
        }
    }
    first
}

/// Numbers, in ascending order, of sequences no longer than the left side. Among them is each that is below the right side and isn't told by a state from the
/// left side. The table of outcomes grows only where it isn't far longer than the list of sequences below.
fn numbers_to_try<L: Ledger>(
    alloc: Global,
    table: &Table,
    entry: &Entry,
    outcomes: &mut Outcomes,
    trials: &[Trial],
    steps: &mut Steps<L>,
) -> Result<Vec<u64>, AllocError>
    requires table { IsTable (table_of table.now) }
    requires some { 0 < length entry.now.right }
    requires no_longer { length entry.now.right ≤ length entry.now.left }
    requires short { lengths_below table.now.costs (length entry.now.left) ≤ 5 }
    requires alphabet { outcomes.old.alphabet ≡ alphabet (alphabet_registers (header_in table.now) entry.now.left) table.now.pool }
    requires start { outcomes.old.start ≡ first_of table.now.states }
    requires trials { AreTrials entry.now.left (map seen table.now.states) trials.now }
    ensures numbers { IfOk result (λ v. CoverUntold (table_of table.now) (rule_of entry.now) v.items) }
    ensures same { OnOk result ((k : ℕ) (pool : List ℕ) (start : State) → IsFor k pool start outcomes.old → IsFor k pool start outcomes.new) }
    ensures cost { steps.new ≤ steps.old + 128 * length (below (header_in table.now) entry.now.left entry.now.right) }
{
    let limit = weight(&table.costs, &entry.right);
    let longest = entry.left.len().min(limit as usize - 1) as u8;
    match few_lighter(alloc, &table.costs, outcomes, longest, limit)? {
        Some(numbers) => Ok(numbers),
        None => candidates(alloc, outcomes, longest, trials, entry.mask, steps),
    }
}

/// Reports the first sequence below the right side, by weight and then by number, that isn't named open and that no state tells from the left side. The
/// tables are kept from entry to entry.
pub(crate) fn check_told<L: Ledger>(
    alloc: Global,
    table: &Table,
    number: u64,
    entry: &Entry,
    trials: &[Trial],
    tables: &mut Tables,
    steps: &mut Steps<L>,
) -> Result<(), AuditError>
    requires table { IsTable (table_of table.now) }
    requires formula { HasFormula (header_in table.now) (rule_of entry.now) }
    requires no_longer { length entry.now.right ≤ length entry.now.left }
    requires short { lengths_below table.now.costs (length entry.now.left) ≤ 5 }
    requires ascending { ascends_from 0 (numbers_of (map opened_of entry.now.opens.items)) ≡ true }
    requires trials { AreTrials entry.now.left (map seen table.now.states) trials.now }
    requires kept { AreTables table.now.pool (first_of table.now.states) tables.old }
    ensures kept { AreTables table.now.pool (first_of table.now.states) tables.new }
    ensures answers { Answers Memory result (ToldVerdict (table_of table.now) number (rule_of entry.now)) }
    ensures cost { steps.new ≤ steps.old + length (below (header_in table.now) entry.now.left entry.now.right) * (128 + length table.now.states * length entry.now.left) }
{
    if entry.right.is_empty() {
        return Ok(());
    }
    let k = alphabet_registers(table, entry);
    let start = first_of(table.states.as_slice());
    let mut outcomes = tables.take(alloc, k, &table.pool, start)?;
    let numbers = numbers_to_try(alloc, table, entry, &mut outcomes, trials, steps)?;
    let untold = first_untold(table, entry, &outcomes, &numbers, trials, steps);
    tables.put(outcomes);
    match untold {
        None => Ok(()),
        Some(first) => {
            Err(AuditError::Entry {
                number,
                kind: EntryFault::Untold(first),
            })
        }
    }
}
