//! A whole proof is accepted where its lines are accepted in turn and one clause is empty.
ghost use Rattle.std.specs.Prelude.{◌≡◌, ℕ, ◌+◌, ◌≤◌, ◌↔◌, ◌⊎◌, IsTrue, IfOk, OnOk, Bool, true};
ghost use Rattle.cnf_gates.specs.Meaning.{all_true};
ghost use Rattle.clause_model.specs.Clauses.{codes_of};
ghost use Rattle.step_ledger.specs.Counts.{RisesByAtLeast};
ghost use Rattle.lrat_check.specs.Proofs.{Answers, started, LinesVerdict, HasEmpty, ProofVerdict};
ghost use Rattle.lrat_check.specs.ProofCosts.{lines_cost};
ghost use Rattle.lrat_check.specs.Runs.{contents_of};

use crate::checker::Checker;
use crate::fault::LineFault;
use crate::line::Line;
use crate::proof_fault::ProofFault;
use cnf_gates::Formula;
use std::alloc::Global;
use step_ledger::{Ledger, Steps};

/// Whether the lines prove that the formula has no model: each is accepted in its turn, and an
/// empty clause is in the formula or added.
pub fn check_proof<L: Ledger>(
    alloc: Global,
    formula: &Formula,
    lines: &[Line],
    steps: &mut Steps<L>,
) -> Result<(), ProofFault>
    ensures answers { Answers ProofFault.Memory result (ProofVerdict ProofFault.Line ProofFault.Unfinished (codes_of formula.now.clauses) (contents_of lines.now)) }
    ensures sound { OnOk result ((v : ℕ → Bool) → all_true v formula.now.clauses ≡ true → ⊥) }
    ensures cost { steps.new ≤ steps.old + lines_cost (started (codes_of formula.now.clauses)) (contents_of lines.now) }
    ensures rises { OnOk result (RisesByAtLeast steps.old steps.new 0) }
{
    let checker = check_lines(alloc, formula, lines, steps)?;
    if checker.refuted() {
        Ok(())
    } else {
        Err(ProofFault::Unfinished)
    }
}

/// A checker that has accepted the lines in turn, or the first line that it doesn't accept.
pub(crate) fn check_lines<L: Ledger>(
    alloc: Global,
    formula: &Formula,
    lines: &[Line],
    steps: &mut Steps<L>,
) -> Result<Checker, ProofFault>
    ensures answers { Answers ProofFault.Memory result (LinesVerdict ProofFault.Line (started (codes_of formula.now.clauses)) 1 (contents_of lines.now)) }
    ensures refuted { IfOk result (λ checker. IsTrue checker.refuted ↔ HasEmpty (codes_of formula.now.clauses) (contents_of lines.now)) }
    ensures cost { steps.new ≤ steps.old + lines_cost (started (codes_of formula.now.clauses)) (contents_of lines.now) }
    ensures rises { OnOk result (RisesByAtLeast steps.old steps.new 0) }
{
    let mut checker = Checker::new(alloc, formula)?;
    for (place, line) in lines.iter().enumerate() {
        if let Err(fault) = checker.add(line, steps) {
            return Err(fault_at(place as u64 + 1, fault));
        }
    }
    Ok(checker)
}

/// A line's fault, reported as a fault of the proof with the line's number.
fn fault_at(number: u64, fault: LineFault) -> ProofFault
    ensures { ((fault ≡ LineFault.Memory) × (result ≡ ProofFault.Memory)) ⊎ ((fault ≡ LineFault.Memory → ⊥) × (result ≡ ProofFault.Line number)) }
{
    match fault {
        LineFault::Memory => ProofFault::Memory,
        _ => ProofFault::Line(number),
    }
}
