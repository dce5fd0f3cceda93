//! The solver's one call, `solve`. It searches until there is a model, the empty clause or no budget left, and logs each learnt clause.

ghost use Rattle.std.specs.Prelude.{◌≡◌, ◌≢◌, ℕ, ◌+◌, ◌*◌, ◌<◌, ◌≤◌, [], IfOk, All, IsTrue, ◌↔◌, length, Contains};
ghost use Rattle.clause_model.specs.Clauses.{codes_of};
ghost use Rattle.cnf_gates.specs.Cnf.{IsLiteral};
ghost use Rattle.cnf_gates.specs.Meaning.{assigned};
ghost use Rattle.cdcl_core.specs.Searched.{IsLoaded};
ghost use Rattle.step_ledger.specs.Counts.{RisesByAtLeast};
ghost use Rattle.cdcl_core.specs.Costs.{lines_in};
ghost use Rattle.cdcl_core.specs.Solved.{AreBelow, VerdictOf};

use crate::formulas::{has_empty, reach};
use crate::search::Ending;
use crate::solver::Solver;
use clause_arena::Memory;
use clause_model::{Assignment, Literal};
use cnf_gates::{Formula, Model};
use lrat_check::{Addition, Id, Line};
use std::alloc::Global;
use step_ledger::{Ledger, Steps};

/// What a solver found.
#[derive(Drop)]
pub enum Verdict {
    /// A model of the formula.
    Sat(Model),
    /// The formula has no model: the log's last clause is empty, or there is no line where a clause
    /// of the formula is empty.
    Unsat(Vec<Line>),
    /// Undecided: as many clauses were learnt as the budget allows, and none is empty.
    Spent(Vec<Line>),
}

/// The values that make the true literals true.
fn model_of(alloc: Global, variables: u32, trail: &Assignment) -> Result<Model, Memory>
    requires { variables ≤ 200000 }
    ensures values { IfOk result (λ m. (v : ℕ) → v < variables → (IsTrue (assigned m v) ↔ Contains trail.now (2 * v))) }
    ensures count { IfOk result (λ m. length m ≡ variables) }
{
    let mut values = Vec::new(alloc);
    for variable in 0..variables {
        let literal = Literal::new(variable, false);
        values.push(trail.is_true(literal))?;
    }
    Ok(Model::new(values))
}

/// The codes of a line's literals.
fn codes_in(alloc: Global, line: &Addition) -> Result<Vec<u32>, Memory>
    ensures { IfOk result (λ v. v.items ≡ line.now.literals.items) }
{
    let mut found = Vec::new(alloc);
    for literal in &line.literals {
        found.push(literal.code())?;
    }
    Ok(found)
}

impl Solver {
    /// Searches again and again, until there is a model, the empty clause, or no budget.
    #[tactic(auto, using(crate::proofs::Logs::cost_after))]
    fn run<L: Ledger>(
        &mut self,
        formula: &Formula,
        budget: u32,
        steps: &mut Steps<L>,
    ) -> Result<Verdict, Memory>
        requires ids { budget + length formula.now.clauses ≤ 4294967295 }
        requires literals { All (λ clause. All IsLiteral clause) formula.now.clauses }
        requires filled { All (λ clause. clause ≢ []) formula.now.clauses }
        requires loaded { IsLoaded formula.now self.old }
        ensures verdict { IfOk result (VerdictOf formula.now budget) }
        ensures cost { steps.new ≤ steps.old + budget * (self.old.variables + 1) }
        ensures rises { IfOk result (λ verdict. RisesByAtLeast steps.old steps.new (lines_in verdict)) }
    {
        let mut log = Vec::new(self.alloc);
        let mut seen = Assignment::new(self.alloc);
        for round in 0..budget {
            let id = Id::new(formula.clauses() as u32 + round + 1);
            match self.search(&mut seen, id, steps)? {
                Ending::Model => {
                    // For the prover alone: the call's contract says that no two true literals are equal or contrary.
                    let _trues = self.trail.len();
                    let model = model_of(self.alloc, self.variables, &self.trail)?;
                    return Ok(Verdict::Sat(model));
                }
                Ending::Refuted(line) => {
                    log.push(Line::Addition(line))?;
                    return Ok(Verdict::Unsat(log));
                }
                Ending::Taught(line) => {
                    self.drop_true()?;
                    let literals = codes_in(self.alloc, &line)?;
                    self.adopt(&literals, id)?;
                    log.push(Line::Addition(line))?;
                }
            }
        }
        Ok(Verdict::Spent(log))
    }
}

/// Whether the formula has a model, as far as learning `budget` clauses decides it.
///
/// The log has no deletion, and its clauses follow by reverse unit propagation with their hints;
/// each but the empty one contains no earlier clause and has no redundant literal. The steps
/// are the decisions and conflicts, of which there is one at least for each line of the log.
pub fn solve<L: Ledger>(
    alloc: Global,
    formula: &Formula,
    budget: u32,
    steps: &mut Steps<L>,
) -> Result<Verdict, Memory>
    requires { budget + length formula.now.clauses ≤ 4294967295 }
    ensures verdict { IfOk result (VerdictOf formula.now budget) }
    ensures cost { (n : ℕ) → formula.now.variables ≤ n → AreBelow n (codes_of formula.now.clauses) → steps.new ≤ steps.old + (budget + 1) * (n + 1) }
    ensures rises { IfOk result (λ verdict. RisesByAtLeast steps.old steps.new (lines_in verdict)) }
{
    if has_empty(formula) {
        return Ok(Verdict::Unsat(Vec::new(alloc)));
    }
    let mut solver = Solver::new(alloc, reach(formula))?;
    solver.load(formula)?;
    let verdict = solver.run(formula, budget, steps)?;
    Ok(verdict)
}
