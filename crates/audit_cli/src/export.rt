//! The command `export`: writes the formula of an entry or a family as DIMACS and its proof as LRAT, for other solvers and checkers. Nothing is audited.
ghost use Rattle.std.specs.Prelude.{◌≡◌, ◌<◌, ℕ, List, IfOk, length, map};
ghost use Rattle.lrat_check.specs.Text.{content_of};
ghost use Rattle.rule_table.specs.Refused.{IsText};
ghost use Rattle.rule_table.specs.Views.{family_of, header_in, rule_of, table_of};
ghost use Rattle.table_audit.specs.declared.errors.EntryFault.TheVariants.{Sides};
ghost use Rattle.table_audit.specs.declared.errors.FamilyKind.TheVariants.{Symbol};
ghost use Rattle.table_audit.specs.Canonical.{HasFormula};
ghost use Rattle.table_audit.specs.Families.{raised_formula, IsRaisable};
ghost use Rattle.table_audit.specs.Shorter.{formula_of};
ghost use Rattle.command_runs.specs.Outcomes.{outcome_view};
ghost use Rattle.command_runs.specs.Plans.{Refuses};
ghost use Rattle.audit_cli.specs.Printed.{refusal_line};
ghost use Rattle.audit_cli.specs.Tables.{Exports, ExportsEntry, ExportsFamily, exported, own_number, proof_text};
ghost use Rattle.audit_cli.specs.Commands.{export_arguments_of};

use crate::printing::{formula_report, keeps_two};
use crate::refusal::{Refusal, refused};
use crate::steps::read_rules;
use cnf_gates::{Formula, write_dimacs};
use command_runs::Outcome;
use lrat_check::{Line, write_line};
use rule_table::{Entry, Family, Table};
use std::alloc::{AllocError, Global};
use step_ledger::{Ledger, Steps};
use table_audit::{
    EntryFault, FamilyKind, entry_at, entry_formula, entry_of, family_at, family_formula,
    is_raisable, sides_fit,
};

/// The command `export`, with the number of an entry or a family (counted from 1, the families after the entries), and the names that its formula and its
/// proof are kept under.
#[derive(Drop)]
pub(crate) struct Export<'a> {
    pub(crate) entry: u32,
    pub(crate) cnf: &'a str,
    pub(crate) lrat: &'a str,
}

/// The lines of a proof, each with its newline.
fn proof_text(alloc: Global, lines: &[Line]) -> Result<Vec<u8>, AllocError>
    ensures { IfOk result (λ v. v.items ≡ proof_text (map content_of lines.now)) }
{
    let mut text = Vec::new(alloc);
    for line in lines {
        let written = write_line(alloc, line)?;
        text.extend_from_slice(&written)?;
    }
    Ok(text)
}

/// What is kept and printed of a formula and its proof.
fn formula_outcome(
    alloc: Global,
    to: &Export<'_>,
    formula: &Formula,
    proof: &[Line],
) -> Result<Outcome, AllocError>
    ensures { IfOk result (λ o. outcome_view o ≡ exported (export_arguments_of to.now) formula.now (map content_of proof.now)) }
{
    let cnf = write_dimacs(alloc, formula)?;
    let lrat = proof_text(alloc, proof)?;
    let lines = formula_report(
        alloc,
        formula.variables(),
        formula.clauses(),
        proof.len() as u64,
    )?;
    keeps_two(alloc, to.cnf, cnf, to.lrat, lrat, lines)
}

/// What is kept and printed of an entry whose sides and mask the table's header allows.
fn fit_entry(
    alloc: Global,
    to: &Export<'_>,
    table: &Table,
    entry: &Entry,
) -> Result<Outcome, AllocError>
    requires { HasFormula (header_in table.now) (rule_of entry.now) }
    ensures { IfOk result (λ o. outcome_view o ≡ exported (export_arguments_of to.now) (formula_of (header_in table.now) (rule_of entry.now)) (rule_of entry.now).proof) }
{
    let formula = entry_formula(alloc, table, entry)?;
    formula_outcome(alloc, to, &formula, &entry.proof)
}

/// What is kept and printed of a family whose number can be raised, and whose entry's sides and mask the table's header allows.
fn fit_family(
    alloc: Global,
    to: &Export<'_>,
    table: &Table,
    family: &Family,
    entry: &Entry,
) -> Result<Outcome, AllocError>
    requires entry { HasFormula (header_in table.now) (rule_of entry.now) }
    requires raisable { IsRaisable table.now.pool (family_of family.now) entry.now.left }
    ensures { IfOk result (λ o. outcome_view o ≡ exported (export_arguments_of to.now) (raised_formula (header_in table.now) (family_of family.now) (rule_of entry.now)) (family_of family.now).proof) }
{
    let formula = family_formula(alloc, table, family, entry)?;
    formula_outcome(alloc, to, &formula, &family.proof)
}

/// The refusal of an entry whose sides or mask the table's header doesn't allow.
fn unfit(alloc: Global, number: u32) -> Result<Outcome, AllocError>
    ensures { IfOk result (λ o. outcome_view o ≡ Refuses (refusal_line (Refusal.Entry number Sides))) }
{
    refused(
        alloc,
        Refusal::Entry {
            number: u64::from(number),
            fault: EntryFault::Sides,
        },
    )
}

/// The outcome for an entry.
fn entry_outcome(
    alloc: Global,
    to: &Export<'_>,
    table: &Table,
    entry: &Entry,
) -> Result<Outcome, AllocError>
    ensures { IfOk result (λ o. ExportsEntry (export_arguments_of to.now) (table_of table.now) (rule_of entry.now) (outcome_view o)) }
{
    if !sides_fit(table, entry) {
        return unfit(alloc, to.entry);
    }
    fit_entry(alloc, to, table, entry)
}

/// The refusal of a family that can't be raised.
fn unraisable(alloc: Global, to: &Export<'_>, table: &Table) -> Result<Outcome, AllocError>
    requires { length table.now.entries.items < to.now.entry }
    ensures { IfOk result (λ o. outcome_view o ≡ Refuses (refusal_line (Refusal.Family (own_number (export_arguments_of to.now) (table_of table.now)) Symbol))) }
{
    refused(
        alloc,
        Refusal::Family {
            number: (to.entry as usize - table.entries.len()) as u64,
            kind: FamilyKind::Symbol,
        },
    )
}

/// The outcome for a family.
fn family_outcome(
    alloc: Global,
    to: &Export<'_>,
    table: &Table,
    family: &Family,
) -> Result<Outcome, AllocError>
    requires { length table.now.entries.items < to.now.entry }
    ensures { IfOk result (λ o. ExportsFamily (export_arguments_of to.now) (table_of table.now) (family_of family.now) (outcome_view o)) }
{
    let Some(entry) = entry_of(table, family) else {
        return unraisable(alloc, to, table);
    };
    if !sides_fit(table, entry) {
        return unfit(alloc, family.entry);
    }
    if !is_raisable(&table.pool, family, &entry.left) {
        return unraisable(alloc, to, table);
    }
    fit_family(alloc, to, table, family, entry)
}

/// The outcome for a table.
fn table_outcome(alloc: Global, to: &Export<'_>, table: &Table) -> Result<Outcome, AllocError>
    ensures { (text : List ℕ) → IsText text (table_of table.now) → IfOk result (λ o. Exports (export_arguments_of to.now) text (outcome_view o)) }
{
    if let Some(entry) = entry_at(&table.entries, to.entry) {
        return entry_outcome(alloc, to, table, entry);
    }
    match family_at(table, to.entry) {
        None => refused(alloc, Refusal::Number),
        Some(family) => family_outcome(alloc, to, table, family),
    }
}

/// The outcome for a table's text.
fn outcome(alloc: Global, to: &Export<'_>, text: &[u8]) -> Result<Outcome, AllocError>
    ensures { IfOk result (λ o. Exports (export_arguments_of to.now) text.now (outcome_view o)) }
{
    match read_rules(alloc, text)? {
        Err(refusal) => refused(alloc, refusal),
        Ok(table) => table_outcome(alloc, to, &table),
    }
}

impl command_runs::TextCommand for Export<'_> {
    ghost use Rattle.audit_cli.specs.Tables.{ExportComesTo};
    ghost use Rattle.audit_cli.specs.Commands.{export_arguments_of};

    ghost takes = { 1 };

    ghost comes = { λ e texts o. ExportComesTo (export_arguments_of e) texts o };

    fn compute<L: Ledger>(
        &self,
        alloc: Global,
        texts: &[Vec<u8>],
        _steps: &mut Steps<L>,
    ) -> Result<Outcome, AllocError> {
        match texts {
            [text] => outcome(alloc, self, text),
            _ => unreachable!(),
        }
    }
}
