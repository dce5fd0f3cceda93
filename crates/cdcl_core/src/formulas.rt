//! A formula's clauses are loaded into the solver's arena, under the numbers by which the log's hints name them.

ghost use Rattle.std.specs.Prelude.{◌≡◌, ◌≢◌, ℕ, ◌<◌, ◌≤◌, ◌*◌, OnOk, All, Any, true, false, [], map, length};
ghost use Rattle.clause_model.specs.Clauses.{code_of, codes_of};
ghost use Rattle.cnf_gates.specs.Cnf.{IsLiteral};
ghost use Rattle.cdcl_core.specs.Held.{Covers};
ghost use Rattle.cdcl_core.specs.Searched.{HasBase};
ghost use Rattle.cdcl_core.specs.Solved.{AreBelow};

use crate::solver::Solver;
use clause_arena::Memory;
use clause_model::Literal;
use cnf_gates::Formula;
use lrat_check::Id;

/// Whether a clause is empty.
pub fn has_empty(formula: &Formula) -> bool
    ensures some { result ≡ true → Any (λ clause. clause ≡ []) formula.now.clauses }
    ensures none { result ≡ false → All (λ clause. clause ≢ []) formula.now.clauses }
{
    for i in 0..formula.clauses() {
        let clause = formula.clause(i + 1);
        if clause.is_empty() {
            return true;
        }
    }
    false
}

/// The least n from `from` on such that each literal is of one of the first n variables.
fn reach_of(numbers: &[i32], from: u32) -> u32
    requires literals { All IsLiteral numbers.now }
    requires few { from ≤ 200000 }
    ensures few { result ≤ 200000 }
    ensures from { from ≤ result }
    ensures below { All (λ l. l < 2 * result) (map code_of numbers.now) }
    ensures least { (n : ℕ) → from ≤ n → All (λ l. l < 2 * n) (map code_of numbers.now) → result ≤ n }
{
    let mut reach = from;
    for number in numbers {
        let end = Literal::from_number(*number).variable() + 1;
        reach = reach.max(end);
    }
    reach
}

/// The least n that is at least the formula's number of variables, and such that each literal
/// is of one of the first n variables.
pub fn reach(formula: &Formula) -> u32
    ensures few { result ≤ 200000 }
    ensures literals { All (λ clause. All IsLiteral clause) formula.now.clauses }
    ensures below { AreBelow result (codes_of formula.now.clauses) }
    ensures reached { formula.now.variables ≤ result }
    ensures least { (n : ℕ) → formula.now.variables ≤ n → AreBelow n (codes_of formula.now.clauses) → result ≤ n }
{
    let mut reach = formula.variables();
    for i in 0..formula.clauses() {
        let numbers = formula.clause(i + 1);
        reach = reach_of(numbers, reach);
    }
    reach
}

/// Replaces the content of `codes` by the codes of the literals that the numbers name.
fn write_codes(numbers: &[i32], codes: &mut Vec<u32>) -> Result<(), Memory>
    ensures { OnOk result (codes.new.items ≡ map code_of numbers.now) }
{
    codes.clear();
    for number in numbers {
        let literal = Literal::from_number(*number);
        codes.push(literal.code())?;
    }
    Ok(())
}

impl Solver {
    /// Adds the formula's clauses, with ids from 1 on.
    pub fn load(&mut self, formula: &Formula) -> Result<(), Memory>
        requires base { HasBase [] self.old self.old.conflict }
        requires ids { self.old.ids.items ≡ [] }
        requires few { length formula.now.clauses ≤ 4294967295 }
        requires filled { All (λ clause. clause ≢ []) formula.now.clauses }
        requires known { AreBelow self.old.variables (codes_of formula.now.clauses) }
        ensures covers { OnOk result (Covers (codes_of formula.now.clauses) (codes_of formula.now.clauses) self.new.ids.items self.new.trail) }
        ensures base { OnOk result (HasBase (codes_of formula.now.clauses) self.new self.new.conflict) }
        ensures variables { OnOk result (self.new.variables ≡ self.old.variables) }
    {
        let mut literals = Vec::new(self.alloc);
        for i in 0..formula.clauses() {
            write_codes(formula.clause(i + 1), &mut literals)?;
            let id = Id::new(i as u32 + 1);
            self.adopt(&literals, id)?;
        }
        Ok(())
    }
}
