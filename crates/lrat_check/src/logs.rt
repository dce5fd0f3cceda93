//! Nothing is proved of a sequence that is named open, so its log is the evidence that the search was made: as many clauses as the budget allows, each new,
//! each of which follows.
ghost use Rattle.std.specs.Prelude.{◌≡◌, ◌+◌, ◌≤◌, ◌∷◌, ◌↔◌, [], IsTrue, IfOk, IfSome, MatchOption, Option};
ghost use Rattle.step_ledger.specs.Counts.{RisesByAtLeast};
ghost use Rattle.clause_model.specs.Clauses.{codes_of, HasDistinctVariables};
ghost use Rattle.lrat_check.specs.Text.{content_of};
ghost use Rattle.lrat_check.specs.Proofs.{started, AllAccepted, added, additions, IsSpentLog, EachIsNew, Spends};
ghost use Rattle.lrat_check.specs.ProofCosts.{lines_cost, newness_cost, spent_cost};
ghost use Rattle.lrat_check.specs.Runs.{contents_of};

use crate::kept_clauses::KeptClauses;
use crate::line::Line;
use crate::proof_fault::ProofFault;
use crate::proofs::check_lines;
use clause_model::Literal;
use cnf_gates::{Formula, Memory};
use std::alloc::Global;
use step_ledger::{Ledger, Steps};

/// Whether the log adds as many clauses as the budget allows, none of them empty and each new,
/// and each of its lines is accepted in its turn.
pub fn is_spent<L: Ledger>(
    alloc: Global,
    formula: &Formula,
    log: &[Line],
    budget: u32,
    steps: &mut Steps<L>,
) -> Result<bool, Memory>
    ensures spent { IfOk result (λ is_spent. IsTrue is_spent ↔ IsSpentLog budget (codes_of formula.now.clauses) (contents_of log.now)) }
    ensures cost { steps.new ≤ steps.old + spent_cost (codes_of formula.now.clauses) (contents_of log.now) }
    ensures rises { IfOk result (λ is_spent. IsTrue is_spent → RisesByAtLeast steps.old steps.new 0) }
{
    if !spends(log, budget) {
        return Ok(false);
    }
    if !are_accepted(alloc, formula, log, steps)? {
        return Ok(false);
    }
    are_new(alloc, formula, log, steps)
}

/// The clause that a line adds.
fn clause_of(line: &Line) -> Option<&[Literal]>
    ensures added { MatchOption result (added (content_of line.now) ≡ []) (λ clause. added (content_of line.now) ≡ clause.now ∷ []) }
    ensures distinct { IfSome result (λ clause. HasDistinctVariables clause.now) }
{
    match line {
        Line::Addition(addition) => Some(addition.literals.as_slice()),
        Line::Deletion(_) => None,
    }
}

/// Whether the log adds as many clauses as the budget allows, none of them empty.
fn spends(log: &[Line], budget: u32) -> bool
    ensures { IsTrue result ↔ Spends budget (contents_of log.now) }
{
    let mut count: u64 = 0;
    for line in log {
        if let Some(clause) = clause_of(line) {
            if clause.is_empty() {
                return false;
            }
            count += 1;
        }
    }
    count == u64::from(budget)
}

/// Whether each line is accepted in its turn.
fn are_accepted<L: Ledger>(
    alloc: Global,
    formula: &Formula,
    log: &[Line],
    steps: &mut Steps<L>,
) -> Result<bool, Memory>
    ensures accepted { IfOk result (λ are_accepted. IsTrue are_accepted ↔ AllAccepted (started (codes_of formula.now.clauses)) (contents_of log.now)) }
    ensures cost { steps.new ≤ steps.old + lines_cost (started (codes_of formula.now.clauses)) (contents_of log.now) }
    ensures rises { IfOk result (λ are_accepted. IsTrue are_accepted → RisesByAtLeast steps.old steps.new 0) }
{
    match check_lines(alloc, formula, log, steps) {
        Ok(_) => Ok(true),
        Err(ProofFault::Memory) => Err(Memory),
        Err(ProofFault::Line(_) | ProofFault::Unfinished) => Ok(false),
    }
}

/// Whether each clause that the log adds contains none before it.
fn are_new<L: Ledger>(
    alloc: Global,
    formula: &Formula,
    log: &[Line],
    steps: &mut Steps<L>,
) -> Result<bool, Memory>
    ensures new { IfOk result (λ are_new. IsTrue are_new ↔ EachIsNew (codes_of formula.now.clauses) (additions (contents_of log.now))) }
    ensures cost { steps.new ≤ steps.old + newness_cost (codes_of formula.now.clauses) (additions (contents_of log.now)) }
    ensures rises { RisesByAtLeast steps.old steps.new 0 }
{
    let mut clauses = KeptClauses::of(alloc, formula)?;
    for line in log {
        if let Some(clause) = clause_of(line) {
            if !clauses.add_new(clause, steps)? {
                return Ok(false);
            }
        }
    }
    Ok(true)
}
