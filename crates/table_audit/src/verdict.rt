//! The audit: it runs the tests of the other modules in their fixed order and reports the first cause of refusal.
ghost use Rattle.std.specs.Prelude.{◌≡◌, ◌≤◌, ◌+◌, IfOk, true, length, map, sum_by};
ghost use Rattle.seq_enum.specs.Alphabet.{ascends_from};
ghost use Rattle.rule_table.specs.Table.{IsTable, numbers_of};
ghost use Rattle.rule_table.specs.Views.{header_in, opened_of, rule_of, table_of};
ghost use Rattle.lrat_check.specs.Proofs.{Answers, Then};
ghost use Rattle.fingerprints.specs.Tables.{AreTables};
ghost use Rattle.table_audit.specs.Naming.{first_of};
ghost use Rattle.table_audit.specs.Canonical.{HasFormula};
ghost use Rattle.table_audit.specs.Acceptance.{lengths_below, ToldVerdict, OpensVerdict, EntryVerdict, EntriesVerdict, TableVerdict};
ghost use Rattle.table_audit.specs.Costs.{runs_cost, open_cost, entry_cost, entries_cost, table_cost};

use crate::audited::Audited;
use crate::errors::{AuditError, EntryFault};
use crate::families::check_families;
use crate::opens::check_opens;
use crate::refutation::check_proof;
use crate::sides::{alphabet_registers, sides_fit};
use crate::states::check_states;
use crate::told::check_told;
use crate::widths::check_width;
use fingerprints::{Tables, trials_of};
use rule_table::{Entry, Table};
use std::alloc::Global;
use step_ledger::{Ledger, Steps};

/// Reports the first sequence below the right side that is neither named open nor told by a state, or the first number that isn't rightly named open.
#[tactic(auto, using(crate::proofs::Fitting::ordered_of))]
fn check_shorter<L: Ledger>(
    alloc: Global,
    table: &Table,
    number: u64,
    entry: &Entry,
    tables: &mut Tables,
    steps: &mut Steps<L>,
) -> Result<(), AuditError>
    requires table { IsTable (table_of table.now) }
    requires states { 64 ≤ length table.now.states }
    requires formula { HasFormula (header_in table.now) (rule_of entry.now) }
    requires no_longer { length entry.now.right ≤ length entry.now.left }
    requires short { lengths_below table.now.costs (length entry.now.left) ≤ 5 }
    requires ascending { ascends_from 0 (numbers_of (map opened_of entry.now.opens.items)) ≡ true }
    requires kept { AreTables table.now.pool (first_of table.now.states) tables.old }
    ensures kept { AreTables table.now.pool (first_of table.now.states) tables.new }
    ensures answers { Answers AuditError.Memory result (Then (ToldVerdict (table_of table.now) number (rule_of entry.now)) (OpensVerdict (table_of table.now) number (rule_of entry.now))) }
    ensures cost { steps.new ≤ steps.old + (runs_cost (table_of table.now) (rule_of entry.now) + sum_by (open_cost (table_of table.now) (rule_of entry.now)) (map opened_of entry.now.opens.items)) }
{
    let k = alphabet_registers(table, entry);
    let trials = trials_of(alloc, entry.left.as_slice(), table.states.as_slice(), steps)?;
    check_told(alloc, table, number, entry, &trials, tables, steps)?;
    check_opens(alloc, table, number, entry, k, &trials, steps)
}

/// Reports why an entry is refused, if it is.
#[tactic(auto, unfolding(crate::specs::Acceptance::EntryVerdict))]
fn check_entry<L: Ledger>(
    alloc: Global,
    table: &Table,
    number: u64,
    entry: &Entry,
    tables: &mut Tables,
    steps: &mut Steps<L>,
) -> Result<(), AuditError>
    requires table { IsTable (table_of table.now) }
    requires states { 64 ≤ length table.now.states }
    requires short { lengths_below table.now.costs table.now.left ≤ 5 }
    requires ascending { ascends_from 0 (numbers_of (map opened_of entry.now.opens.items)) ≡ true }
    requires kept { AreTables table.now.pool (first_of table.now.states) tables.old }
    ensures kept { AreTables table.now.pool (first_of table.now.states) tables.new }
    ensures answers { Answers AuditError.Memory result (EntryVerdict (table_of table.now) number (rule_of entry.now)) }
    ensures cost { steps.new ≤ steps.old + entry_cost (table_of table.now) (rule_of entry.now) }
{
    if !sides_fit(table, entry) {
        return Err(AuditError::Entry {
            number,
            kind: EntryFault::Sides,
        });
    }
    check_proof(alloc, table, number, entry, steps)?;
    check_shorter(alloc, table, number, entry, tables, steps)
}

/// Reports the first entry that is refused, and why.
fn check_entries<L: Ledger>(
    alloc: Global,
    table: &Table,
    steps: &mut Steps<L>,
) -> Result<(), AuditError>
    requires table { IsTable (table_of table.now) }
    requires states { 64 ≤ length table.now.states }
    requires short { lengths_below table.now.costs table.now.left ≤ 5 }
    ensures answers { Answers AuditError.Memory result (EntriesVerdict (table_of table.now)) }
    ensures cost { steps.new ≤ steps.old + entries_cost (table_of table.now) }
{
    let mut tables = Tables::new();
    for (place, entry) in table.entries.iter().enumerate() {
        check_entry(alloc, table, place as u64 + 1, entry, &mut tables, steps)?;
    }
    Ok(())
}

/// Reports why a table is refused, if it is.
fn check_table<L: Ledger>(
    alloc: Global,
    table: &Table,
    steps: &mut Steps<L>,
) -> Result<(), AuditError>
    requires { IsTable (table_of table.now) }
    ensures answers { Answers AuditError.Memory result (TableVerdict (table_of table.now)) }
    ensures cost { steps.new ≤ steps.old + table_cost (table_of table.now) }
{
    check_states(alloc, table)?;
    check_width(table)?;
    check_entries(alloc, table, steps)?;
    check_families(alloc, table, steps)
}

/// Accepts a table, or reports the first cause of refusal and drops the table. The causes, in order: the first of the seed's states that
/// is missing or differs; too many sequences that may be below a right side; then, entry by entry, its sides, the first line of its proof that
/// isn't accepted, a proof without an empty clause, the first sequence below the right side, by weight and then by number, that is neither named open
/// nor told by a state, and the first number that isn't rightly named open; then, family by family, a number that can't be raised, and its proof. A sequence is
/// below the right side where it is no longer than the left side and weighs less than the right side: it costs less, or without costs it is shorter.
///
/// A step is one instruction run, one sequence whose outcome is computed, or one look at a literal of a clause.
pub fn audit<L: Ledger>(
    alloc: Global,
    table: Table,
    steps: &mut Steps<L>,
) -> Result<Audited, AuditError>
    requires { IsTable (table_of table) }
    ensures answers { Answers AuditError.Memory result (TableVerdict (table_of table)) }
    ensures kept { IfOk result (λ audited. audited ≡ table) }
    ensures cost { steps.new ≤ steps.old + table_cost (table_of table) }
{
    check_table(alloc, &table, steps)?;
    Ok(Audited::new(table))
}
