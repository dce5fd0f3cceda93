//! Whether the proof of an entry is accepted: it must derive the empty clause from the formula that the sides differ.
ghost use Rattle.std.specs.Prelude.{◌≡◌, ◌≤◌, ◌+◌, [], IsTrue};
ghost use Rattle.rule_table.specs.Views.{header_in, rule_of, table_of};
ghost use Rattle.lrat_check.specs.Proofs.{Answers};
ghost use Rattle.table_audit.specs.declared.errors.AuditError.TheVariants.{Memory};
ghost use Rattle.table_audit.specs.Canonical.{HasFormula};
ghost use Rattle.table_audit.specs.Acceptance.{EntryProofVerdict};
ghost use Rattle.table_audit.specs.Faults.{fault_of};
ghost use Rattle.table_audit.specs.Costs.{proof_cost};

use crate::errors::{AuditError, EntryFault};
use crate::sides::entry_formula;
use lrat_check::ProofFault;
use rule_table::{Entry, Table};
use seq_enum::{Pool, number_of};
use std::alloc::Global;
use step_ledger::{Ledger, Steps};
use thumb_instr::Seq;

/// A fault of a proof, reported as a fault of the entry of this number.
fn fault_of(number: u64, fault: ProofFault) -> AuditError
    ensures { result ≡ fault_of number fault }
{
    match fault {
        ProofFault::Line(line) => AuditError::Entry {
            number,
            kind: EntryFault::Proof(line),
        },
        ProofFault::Unfinished => AuditError::Entry {
            number,
            kind: EntryFault::Unfinished,
        },
        ProofFault::Memory => AuditError::Memory,
    }
}

/// Whether two sides are the same sequence over r0 to r3 and a pool. False also where one isn't over these.
fn is_same(pool: &Pool, left: &Seq, right: &Seq) -> bool
    ensures { IsTrue result → left.now ≡ right.now }
{
    let Some(number) = number_of(4, pool, left) else {
        return false;
    };
    let Some(other) = number_of(4, pool, right) else {
        return false;
    };
    number == other
}

/// Whether the right side of an entry is its left side, and its proof has no line. It needs none: the formula of a side against itself ends in the empty
/// clause.
fn is_unshortened(pool: &Pool, entry: &Entry) -> bool
    ensures sides { IsTrue result → entry.now.left ≡ entry.now.right }
    ensures proof { IsTrue result → (rule_of entry.now).proof ≡ [] }
{
    entry.proof.is_empty() && is_same(pool, &entry.left, &entry.right)
}

/// Reports the first line of an entry's proof that isn't accepted, or that no clause is empty. Where the right side is the left side itself, as in most
/// entries that were learnt, no formula is made.
pub(crate) fn check_proof<L: Ledger>(
    alloc: Global,
    table: &Table,
    number: u64,
    entry: &Entry,
    steps: &mut Steps<L>,
) -> Result<(), AuditError>
    requires { HasFormula (header_in table.now) (rule_of entry.now) }
    ensures answers { Answers Memory result (EntryProofVerdict (table_of table.now) number (rule_of entry.now)) }
    ensures cost { steps.new ≤ steps.old + proof_cost (table_of table.now) (rule_of entry.now) }
{
    if is_unshortened(&table.pool, entry) {
        return Ok(());
    }
    let formula = entry_formula(alloc, table, entry)?;
    match lrat_check::check_proof(alloc, &formula, &entry.proof, steps) {
        Ok(()) => Ok(()),
        Err(fault) => Err(fault_of(number, fault)),
    }
}
