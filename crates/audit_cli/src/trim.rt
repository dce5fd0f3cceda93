//! The command `trim`: keeps an accepted table, with its proofs reduced to the lines and hints that they need.
ghost use Rattle.std.specs.Prelude.{◌≡◌, ◌<◌, ◌+◌, ◌^◌, All, IfOk, map, sum_by, length};
ghost use Rattle.std.specs.List.{AllZip};
ghost use Rattle.clause_model.specs.Clauses.{codes_of};
ghost use Rattle.lrat_check.specs.Runs.{IsRefutation};
ghost use Rattle.rule_table.specs.Table.{Rule, Family as Raised};
ghost use Rattle.rule_table.specs.Views.{family_of, header_in, rule_of, table_of};
ghost use Rattle.table_audit.specs.Acceptance.{IsAccepted};
ghost use Rattle.table_audit.specs.Canonical.{HasFormula};
ghost use Rattle.table_audit.specs.Shorter.{formula_of};
ghost use Rattle.command_runs.specs.Outcomes.{outcome_view};
ghost use Rattle.audit_cli.specs.Ready.{IsRaised};
ghost use Rattle.audit_cli.specs.Trim.{IsTrimmedRule, IsTrimmedFamily, IsTrimmedTable, IsTrimOf, Trims, lines_in, trimmed_outcome};

use crate::printing::{keeps_text, trimmed_report};
use crate::refusal::refused;
use crate::steps::read_audited;
use command_runs::Outcome;
use rule_table::{Entry, Family, Table, write_table};
use std::alloc::{AllocError, Global};
use std::mem;
use step_ledger::{Ledger, Steps};
use table_audit::{entry_formula, entry_of, family_formula};

/// The command `trim`, with the name that the table is kept under.
#[derive(Drop)]
pub(crate) struct Trim<'a> {
    pub(crate) out: &'a str,
}

/// How many lines the proofs of entries have.
fn count_lines(entries: &[Entry]) -> u64
    requires { sum_by (λ (e : Rule). length e.proof) (map rule_of entries.now) < 2 ^ 63 }
    ensures { result ≡ sum_by (λ (e : Rule). length e.proof) (map rule_of entries.now) }
{
    let mut count = 0;
    for entry in entries {
        count += entry.proof.len() as u64;
    }
    count
}

/// How many lines the proofs of families have.
fn count_raised(families: &[Family]) -> u64
    requires { sum_by (λ (f : Raised). length f.proof) (map family_of families.now) < 2 ^ 63 }
    ensures { result ≡ sum_by (λ (f : Raised). length f.proof) (map family_of families.now) }
{
    let mut count = 0;
    for family in families {
        count += family.proof.len() as u64;
    }
    count
}

/// How many lines the proofs of a table's entries and families have.
fn count_all(table: &Table) -> u64
    requires { lines_in (table_of table.now) < 2 ^ 63 }
    ensures { result ≡ lines_in (table_of table.now) }
{
    count_lines(&table.entries) + count_raised(&table.families)
}

/// The entry of a table with its proof trimmed.
fn trimmed_entry<L: Ledger>(
    alloc: Global,
    table: &Table,
    entry: Entry,
    steps: &mut Steps<L>,
) -> Result<Entry, AllocError>
    requires formula { HasFormula (header_in table.now) (rule_of entry) }
    requires refutes { IsRefutation (codes_of (formula_of (header_in table.now) (rule_of entry)).clauses) (rule_of entry).proof }
    ensures { IfOk result (λ e. IsTrimmedRule (header_in table.now) (rule_of entry) (rule_of e)) }
{
    let formula = entry_formula(alloc, table, &entry)?;
    let trimmed = lrat_check::trim(alloc, &formula, &entry.proof, steps)?;
    let Entry {
        left,
        right,
        mask,
        opens,
        proof: _given,
    } = entry;
    Ok(Entry {
        left,
        right,
        mask,
        opens,
        proof: trimmed,
    })
}

/// The family of a table with its proof trimmed.
fn trimmed_family<L: Ledger>(
    alloc: Global,
    table: &Table,
    family: Family,
    steps: &mut Steps<L>,
) -> Result<Family, AllocError>
    requires { IsRaised (header_in table.now) (table_of table.now).rules (family_of family) }
    ensures { IfOk result (λ f. IsTrimmedFamily (header_in table.now) (table_of table.now).rules (family_of family) (family_of f)) }
{
    let Some(raised) = entry_of(table, &family) else {
        unreachable!();
    };
    let formula = family_formula(alloc, table, &family, raised)?;
    let trimmed = lrat_check::trim(alloc, &formula, &family.proof, steps)?;
    let Family {
        entry,
        number,
        low,
        high,
        proof: _given,
    } = family;
    Ok(Family {
        entry,
        number,
        low,
        high,
        proof: trimmed,
    })
}

/// The families of a table with their proofs trimmed.
fn trimmed_families<L: Ledger>(
    alloc: Global,
    table: &Table,
    families: Vec<Family>,
    steps: &mut Steps<L>,
) -> Result<Vec<Family>, AllocError>
    requires { All (IsRaised (header_in table.now) (table_of table.now).rules) (map family_of families.items) }
    ensures { IfOk result (λ fs. AllZip (IsTrimmedFamily (header_in table.now) (table_of table.now).rules) (map family_of families.items) (map family_of fs.items)) }
{
    let mut all = Vec::new(alloc);
    for family in families {
        let trimmed = trimmed_family(alloc, table, family, steps)?;
        all.push(trimmed)?;
    }
    Ok(all)
}

/// The table with the proofs of its entries and families trimmed.
fn trimmed_table<L: Ledger>(
    alloc: Global,
    mut table: Table,
    steps: &mut Steps<L>,
) -> Result<Table, AllocError>
    requires { IsAccepted (table_of table) }
    ensures { IfOk result (λ t. IsTrimmedTable (table_of table) (table_of t)) }
{
    let families = mem::replace(&mut table.families, Vec::new(alloc));
    let families = trimmed_families(alloc, &table, families, steps)?;
    let entries = mem::replace(&mut table.entries, Vec::new(alloc));
    for entry in entries {
        let trimmed = trimmed_entry(alloc, &table, entry, steps)?;
        table.entries.push(trimmed)?;
    }
    table.families = families;
    Ok(table)
}

/// What is kept and printed of a table, whose proofs had so many lines before.
fn kept(alloc: Global, out: &str, table: &Table, before: u64) -> Result<Outcome, AllocError>
    ensures { IfOk result (λ o. outcome_view o ≡ trimmed_outcome out.now (table_of table.now) before) }
{
    let text = write_table(alloc, table)?;
    let after = count_all(table);
    let lines = trimmed_report(alloc, before, after)?;
    keeps_text(alloc, out, text, lines)
}

/// The outcome for an accepted table.
fn table_outcome<L: Ledger>(
    alloc: Global,
    out: &str,
    table: Table,
    steps: &mut Steps<L>,
) -> Result<Outcome, AllocError>
    requires accepted { IsAccepted (table_of table) }
    requires few { lines_in (table_of table) < 2 ^ 63 }
    ensures { IfOk result (λ o. IsTrimOf out.now (table_of table) (outcome_view o)) }
{
    let before = count_all(&table);
    let trimmed = trimmed_table(alloc, table, steps)?;
    kept(alloc, out, &trimmed, before)
}

/// The outcome for a table's text.
fn outcome<L: Ledger>(
    alloc: Global,
    out: &str,
    text: &[u8],
    steps: &mut Steps<L>,
) -> Result<Outcome, AllocError>
    ensures { IfOk result (λ o. Trims out.now text.now (outcome_view o)) }
{
    match read_audited(alloc, text, steps)? {
        Err(refusal) => refused(alloc, refusal),
        Ok(audited) => table_outcome(alloc, out, audited.into_table(), steps),
    }
}

impl command_runs::TextCommand for Trim<'_> {
    ghost use Rattle.audit_cli.specs.Trim.{TrimComesTo};

    ghost takes = { 1 };

    ghost comes = { λ t texts o. TrimComesTo t.out.now texts o };

    fn compute<L: Ledger>(
        &self,
        alloc: Global,
        texts: &[Vec<u8>],
        steps: &mut Steps<L>,
    ) -> Result<Outcome, AllocError> {
        match texts {
            [text] => outcome(alloc, self.out, text, steps),
            _ => unreachable!(),
        }
    }
}
