//! Adds a family to a table: an entry in which one number may take each value of a range. The solver proves it, or the fault says why there is none.
ghost use Rattle.std.specs.Prelude.{◌≡◌, ◌<◌, ◌≤◌, ◌+◌, ◌*◌, ◌^◌, ◌↔◌, All, Err, IfErr, IfOk, OnOk, length, map};
ghost use Rattle.cnf_gates.specs.Meaning.{IsModel};
ghost use Rattle.lrat_check.specs.Text.{content_of, IsLine};
ghost use Rattle.rule_table.specs.Table.{IsTable};
ghost use Rattle.rule_table.specs.Views.{family_of, header_in, rule_of, table_of};
ghost use Rattle.cdcl_core.specs.Solved.{VerdictOf};
ghost use Rattle.table_audit.specs.Acceptance.{IsAccepted};
ghost use Rattle.table_audit.specs.Canonical.{HasFormula};
ghost use Rattle.table_audit.specs.Families.{raised_formula, IsRaisable};
ghost use Rattle.table_learn.specs.Learnt.{IsRefutation};
ghost use Rattle.audit_cli.specs.Generalise.{wanted, with_family, HasNone, IsRaisableFor, IsUnraisable, IsGeneralised, FailsFor};

use bit_blast::{state_of, value_of};
use cdcl_core::{Verdict, solve};
use cnf_gates::Model;
use lrat_check::Line;
use rule_table::{Entry, Family, Table};
use std::alloc::{AllocError, Global};
use std::fmt;
use step_ledger::{Ledger, Steps};
use table_audit::{Audited, alphabet_registers, entry_of, family_formula, is_raisable};
use thiserror::Error;
use window_exec::WState;

/// Why a table gets no family, in the order in which the causes are tested.
#[derive(Drop, Error)]
pub enum FamilyFault {
    /// There is no such entry.
    #[error("there is no such entry")]
    Number,
    /// The number isn't in the pool, or lies outside the range, or isn't an 8-bit operand in the left side; or the range goes beyond 255.
    #[error("the number can't be raised")]
    Symbol,
    /// With this value in place of the number, the sides have different effects under the mask from this state.
    #[error("the sides differ with {value}")]
    Differ { state: WState, value: u8 },
    /// The log of the search that spent the budget.
    #[error("the solver spent its budget")]
    Spent(Vec<Line>),
    /// Memory ran out, or a number of entries or clauses doesn't fit in 32 bits.
    #[error("out of memory")]
    Memory,
}

impl fmt::Debug for FamilyFault {
    fn fmt<W: fmt::Write>(&self, f: &mut fmt::Formatter<W>) -> fmt::Result {
        match self {
            FamilyFault::Number => write!(f, "Number"),
            FamilyFault::Symbol => write!(f, "Symbol"),
            FamilyFault::Differ { value, .. } => write!(f, "Differ({value})"),
            FamilyFault::Spent(log) => write!(f, "Spent({})", log.len()),
            FamilyFault::Memory => write!(f, "Memory"),
        }
    }
}

/// The solver's verdict on a family's formula, within the table's budget.
fn search<L: Ledger>(
    alloc: Global,
    table: &Table,
    family: &Family,
    entry: &Entry,
    steps: &mut Steps<L>,
) -> Result<Verdict, AllocError>
    requires entry { HasFormula (header_in table.now) (rule_of entry.now) }
    requires raisable { IsRaisable table.now.pool (family_of family.now) entry.now.left }
    ensures found { IfOk result (VerdictOf (raised_formula (header_in table.now) (family_of family.now) (rule_of entry.now)) table.now.budget) }
    ensures few { OnOk result (table.now.budget + length (raised_formula (header_in table.now) (family_of family.now) (rule_of entry.now)).clauses ≤ 4294967295) }
    ensures cost { steps.new ≤ steps.old + (table.now.budget + 1) * 200001 }
{
    let formula = family_formula(alloc, table, family, entry)?;
    if formula.clauses() + u64::from(table.budget) > u64::from(u32::MAX) {
        return Err(AllocError);
    }
    let verdict = solve(alloc, &formula, table.budget, steps)?;
    Ok(verdict)
}

/// The fault that a model of a family's formula shows: the model has a value and a state from which the sides with that value differ.
fn differing(table: &Table, family: &Family, entry: &Entry, model: &Model) -> FamilyFault
    requires entry { HasFormula (header_in table.now) (rule_of entry.now) }
    requires raisable { IsRaisableFor (table_of table.now) (family_of family.now) (rule_of entry.now) }
    requires model { IsModel model.now (raised_formula (header_in table.now) (family_of family.now) (rule_of entry.now)) }
    ensures { FailsFor (table_of table.now) (family_of family.now) result }
{
    let registers = alphabet_registers(table, entry);
    FamilyFault::Differ {
        state: state_of(model, registers),
        value: value_of(model, registers),
    }
}

/// The solver's proof of a family, or the fault.
fn prove<L: Ledger>(
    alloc: Global,
    table: &Table,
    family: &Family,
    entry: &Entry,
    steps: &mut Steps<L>,
) -> Result<Vec<Line>, FamilyFault>
    requires entry { HasFormula (header_in table.now) (rule_of entry.now) }
    requires raisable { IsRaisableFor (table_of table.now) (family_of family.now) (rule_of entry.now) }
    ensures proved { IfOk result (λ log. IsRefutation table.now.budget (raised_formula (header_in table.now) (family_of family.now) (rule_of entry.now)) (map content_of log.items)) }
    ensures lines { IfOk result (λ log. All IsLine (map content_of log.items)) }
    ensures fault { IfErr result (FailsFor (table_of table.now) (family_of family.now)) }
    ensures cost { steps.new ≤ steps.old + (table.now.budget + 1) * 200001 }
{
    match search(alloc, table, family, entry, steps) {
        Err(_) => Err(FamilyFault::Memory),
        Ok(Verdict::Unsat(log)) => Ok(log),
        Ok(Verdict::Spent(log)) => Err(FamilyFault::Spent(log)),
        Ok(Verdict::Sat(model)) => Err(differing(table, family, entry, &model)),
    }
}

/// The table with one more family, after all others, in version 3, or in its own version if that is later.
fn with_family(mut table: Table, family: Family) -> Result<Table, AllocError>
    ensures { IfOk result (λ t. table_of t ≡ with_family (table_of table) (family_of family)) }
{
    table.version = table.version.max(3);
    table.families.push(family)?;
    Ok(table)
}

/// The table with one more family, which the solver proves, or the fault.
fn raised<L: Ledger>(
    alloc: Global,
    table: Table,
    family: Family,
    steps: &mut Steps<L>,
) -> Result<Table, FamilyFault>
    requires valid { IsTable (table_of table) }
    requires accepted { IsAccepted (table_of table) }
    ensures generalised { IfOk result (λ t. IsGeneralised (table_of table) (family_of family) (table_of t)) }
    ensures fault { IfErr result (FailsFor (table_of table) (family_of family)) }
    ensures number { (result ≡ Err FamilyFault.Number) ↔ HasNone (table_of table) (family_of family) }
    ensures symbol { (result ≡ Err FamilyFault.Symbol) ↔ IsUnraisable (table_of table) (family_of family) }
    ensures cost { steps.new ≤ steps.old + (table.budget + 1) * 200001 }
{
    let Some(entry) = entry_of(&table, &family) else {
        return Err(FamilyFault::Number);
    };
    if !is_raisable(&table.pool, &family, &entry.left) {
        return Err(FamilyFault::Symbol);
    }
    let proof = prove(alloc, &table, &family, entry, steps)?;
    let Family {
        entry,
        number,
        low,
        high,
        proof: _none,
    } = family;
    let family = Family {
        entry,
        number,
        low,
        high,
        proof,
    };
    match with_family(table, family) {
        Err(_) => Err(FamilyFault::Memory),
        Ok(table) => Ok(table),
    }
}

/// The table with one more family, after all others: an entry, counted from 1, in which a number of the pool, where it is an 8-bit operand, may take each
/// value from `low` to `high`. The audit accepts the table, and nothing else in it changes, except that its version becomes 3 if it was lower.
///
/// The solver proves the family within the table's budget. The causes of a refusal are tested in the order of `FamilyFault`: `Number`, and `Symbol` for an
/// entry below 2^32, are returned exactly if they hold; `Differ` has a state and a value of the range for which the sides differ under the mask; `Spent` has
/// a log that spends the budget.
pub fn generalise<L: Ledger>(
    alloc: Global,
    audited: Audited,
    entry: u64,
    number: u8,
    low: u8,
    high: u8,
    steps: &mut Steps<L>,
) -> Result<Table, FamilyFault>
    ensures generalised { IfOk result (λ t. IsGeneralised (table_of audited) (wanted entry number low high) (table_of t)) }
    ensures fault { IfErr result (FailsFor (table_of audited) (wanted entry number low high)) }
    ensures number { (result ≡ Err FamilyFault.Number) ↔ HasNone (table_of audited) (wanted entry number low high) }
    ensures symbol { entry < 2 ^ 32 → ((result ≡ Err FamilyFault.Symbol) ↔ IsUnraisable (table_of audited) (wanted entry number low high)) }
    ensures cost { steps.new ≤ steps.old + (audited.budget + 1) * 200001 }
{
    let table = audited.into_table();
    if entry > table.entries.len() as u64 {
        return Err(FamilyFault::Number);
    }
    if entry > u64::from(u32::MAX) {
        return Err(FamilyFault::Memory);
    }
    let family = Family {
        entry: entry as u32,
        number: u32::from(number),
        low: u32::from(low),
        high: u32::from(high),
        proof: Vec::new(alloc),
    };
    raised(alloc, table, family, steps)
}
