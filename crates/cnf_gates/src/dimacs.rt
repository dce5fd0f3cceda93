//! Formulas as DIMACS text, for checking a proof with other programs.
ghost use Rattle.std.specs.Prelude.{◌≡◌, ◌++◌, IfOk, OnOk, string_bytes};
ghost use Rattle.cnf_gates.specs.Cnf.{dimacs, header_line, clause_line};

use crate::errors::Memory;
use crate::formula::Formula;
use std::alloc::Global;
use std::fmt::Write;

/// The formula in the DIMACS format: the line `p cnf V C` with the counts of variables and
/// clauses, and then a line for each clause, each literal followed by a blank, and `0`.
pub fn write_dimacs(alloc: Global, formula: &Formula) -> Result<Vec<u8>, Memory>
    ensures { IfOk result (λ text. text.items ≡ dimacs formula.now) }
{
    let mut text = header(alloc, formula.variables(), formula.clauses())?;
    for place in 0..formula.clauses() {
        push_clause(&mut text, formula.clause(place + 1))?;
    }
    Ok(text.into_bytes())
}

/// The first line.
fn header(alloc: Global, variables: u32, clauses: u64) -> Result<String, Memory>
    ensures { IfOk result (λ text. string_bytes text ≡ header_line variables clauses) }
{
    Ok(format!(in alloc; "p cnf {variables} {clauses}\n")?)
}

/// Adds a clause's line.
fn push_clause(text: &mut String, clause: &[i32]) -> Result<(), Memory>
    ensures { OnOk result (string_bytes text.new ≡ string_bytes text.old ++ clause_line clause.now) }
{
    for literal in clause {
        write!(text, "{literal} ")?;
    }
    text.push_str("0\n")?;
    Ok(())
}
