//! Cases of formulas: they are made of given clauses, or are that of a table's last entry, and are kept for later cases.
ghost use Rattle.rule_table.specs.Views.{table_of};
ghost use Rattle.rule_table.specs.Table.{IsTable};

use crate::case::Case;
use crate::rule_part::Given;
use crate::tables::read;
use cnf_gates::{Bit, Builder, Formula, write_dimacs};
use rule_table::Table;
use seq_enum::number_of;
use std::alloc::Global;
use table_audit::{entry_formula, sides_fit};

/// A literal, given by its DIMACS number. `bits` has the constant false at 0, and the variables after it.
fn literal(bits: &[Bit], word: &str) -> Option<Bit> {
    let number = word.parse::<i32>().ok()?;
    let bit = *bits.get(number.unsigned_abs() as usize)?;
    Some(bit.negated_if(number < 0))
}

/// Adds a clause, given by DIMACS numbers.
fn add_clause(alloc: Global, builder: &mut Builder, bits: &[Bit], clause: &str) -> Option<()> {
    let mut literals = Vec::new(alloc);
    for word in clause.split(' ') {
        literals.push(literal(bits, word)?).ok()?;
    }
    builder.or_clause(&literals).ok()
}

/// Adds an input for each word, and clauses, each given by DIMACS numbers.
fn build(alloc: Global, builder: &mut Builder, words: &str, clauses: &str) -> Option<()> {
    let mut bits = vec![in alloc; Bit::Constant(false)].ok()?;
    for _ in words.split(' ') {
        bits.push(builder.input().ok()?).ok()?;
    }
    for clause in clauses.split(" / ") {
        add_clause(alloc, builder, &bits, clause)?;
    }
    Some(())
}

pub(crate) fn clauses(given: &mut Given, case: &Case<'_>) -> Option<()> {
    let (variables, clauses) = case.rest().split_once(" / ")?;
    let mut builder = Builder::new(given.alloc);
    build(given.alloc, &mut builder, variables, clauses)?;
    given.formula = builder.finish();
    Some(())
}

pub(crate) fn push_empty(given: &mut Given) -> Option<()> {
    given.formula.push_clause(Vec::new(given.alloc)).ok()
}

/// A checksum of a text.
fn digest(text: &[u8]) -> u32 {
    let mut digest = 0u32;
    for byte in text {
        digest = digest.rotate_left(5) ^ u32::from(*byte);
    }
    digest
}

/// Adds the number of the left side of a table's last entry, and returns the formula of that entry.
fn last_formula(table: &Table, case: &mut Case<'_>) -> Option<Formula>
    requires { IsTable (table_of table.now) }
{
    let entry = table.entries.last()?;
    if table.regs == 0 || table.regs > 4 || !sides_fit(table, entry) {
        return None;
    }
    case.add(number_of(table.regs, &table.pool, &entry.left)?);
    entry_formula(case.alloc, table, entry).ok()
}

/// Adds how many variables and clauses a formula has, and a checksum of its text.
fn add_formula(formula: &Formula, case: &mut Case<'_>) -> Option<()> {
    let text = write_dimacs(case.alloc, formula).ok()?;
    case.add(formula.variables());
    case.add(formula.clauses());
    case.add_digest(digest(&text));
    Some(())
}

pub(crate) fn entry(given: &mut Given, case: &mut Case<'_>) -> Option<()> {
    let table = read(given, case.rest())?;
    given.formula = last_formula(&table, case)?;
    add_formula(&given.formula, case)
}
