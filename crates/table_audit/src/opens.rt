//! Numbers that an entry names open: no state may tell the sequence, and its log must spend the whole budget, so that none is named open for convenience.
ghost use Rattle.std.specs.Prelude.{◌≡◌, ◌<◌, ◌≤◌, ◌+◌, ◌*◌, ◌↔◌, true, IfOk, IsTrue, length, map, sum_by};
ghost use Rattle.window_exec.specs.State.{seen};
ghost use Rattle.seq_enum.specs.Alphabet.{ascends_from};
ghost use Rattle.rule_table.specs.Table.{numbers_of};
ghost use Rattle.rule_table.specs.Views.{header_in, opened_of, rule_of, table_of};
ghost use Rattle.lrat_check.specs.Proofs.{Answers};
ghost use Rattle.table_audit.specs.Shorter.{alphabet_registers, below};
ghost use Rattle.table_audit.specs.Canonical.{HasFormula};
ghost use Rattle.fingerprints.specs.Trials.{AreTrials};
ghost use Rattle.table_audit.specs.Acceptance.{IsRightlyOpen, OpensVerdict};
ghost use Rattle.table_audit.specs.Costs.{open_cost};
ghost use Rattle.table_audit.specs.Naming.{told_cost};

use crate::errors::{AuditError, EntryFault};
use crate::sides::formula_against;
use crate::widths::below_at;
use cnf_gates::Memory;
use fingerprints::{Trial, is_told};
use lrat_check::is_spent;
use rule_table::{Entry, Open, Table};
use std::alloc::Global;
use step_ledger::{Ledger, Steps};

/// Whether a number that an entry names open is that of a sequence below its right side, which no state tells from the left side, and its log spends the
/// budget on the formula of the two.
fn is_rightly_open<L: Ledger>(
    alloc: Global,
    table: &Table,
    entry: &Entry,
    k: u8,
    trials: &[Trial],
    open: &Open,
    steps: &mut Steps<L>,
) -> Result<bool, Memory>
    requires count { k ≡ alphabet_registers (header_in table.now) entry.now.left }
    requires some { 0 < k }
    requires few { k ≤ 4 }
    requires formula { HasFormula (header_in table.now) (rule_of entry.now) }
    requires trials { AreTrials entry.now.left (map seen table.now.states) trials.now }
    ensures right { IfOk result (λ right. IsTrue right ↔ IsRightlyOpen (table_of table.now) (rule_of entry.now) (opened_of open.now)) }
    ensures cost { steps.new ≤ steps.old + (told_cost (table_of table.now) (rule_of entry.now) open.now.number + open_cost (table_of table.now) (rule_of entry.now) (opened_of open.now)) }
{
    match below_at(
        &table.costs,
        k,
        &table.pool,
        &entry.left,
        &entry.right,
        open.number,
    ) {
        None => Ok(false),
        Some(seq) => {
            if is_told(trials, seq.as_slice(), entry.mask, steps) {
                return Ok(false);
            }
            let formula = formula_against(alloc, table, entry, &seq)?;
            is_spent(alloc, &formula, &open.log, table.budget, steps)
        }
    }
}

/// Reports the first number named open that isn't rightly so.
pub(crate) fn check_opens<L: Ledger>(
    alloc: Global,
    table: &Table,
    number: u64,
    entry: &Entry,
    k: u8,
    trials: &[Trial],
    steps: &mut Steps<L>,
) -> Result<(), AuditError>
    requires count { k ≡ alphabet_registers (header_in table.now) entry.now.left }
    requires some { 0 < k }
    requires few { k ≤ 4 }
    requires formula { HasFormula (header_in table.now) (rule_of entry.now) }
    requires ascending { ascends_from 0 (numbers_of (map opened_of entry.now.opens.items)) ≡ true }
    requires trials { AreTrials entry.now.left (map seen table.now.states) trials.now }
    ensures answers { Answers AuditError.Memory result (OpensVerdict (table_of table.now) number (rule_of entry.now)) }
    ensures cost { steps.new ≤ steps.old + (length (below (header_in table.now) entry.now.left entry.now.right) * (length (table_of table.now).states * length entry.now.left)
        + sum_by (open_cost (table_of table.now) (rule_of entry.now)) (map opened_of entry.now.opens.items)) }
{
    for open in &entry.opens {
        if !is_rightly_open(alloc, table, entry, k, trials, open, steps)? {
            return Err(AuditError::Entry {
                number,
                kind: EntryFault::Open(open.number),
            });
        }
    }
    Ok(())
}
