//! Learning from a conflict: the clause is found, minimised and certified by a line of the log.

ghost use Rattle.std.specs.Prelude.{◌≡◌, ℕ, ◌≤◌, OnOk, IfOk, All, List, length, map, Option, pos};
ghost use Rattle.clause_model.specs.Clauses.{IsAsserting};
ghost use Rattle.clause_arena.specs.Contents.{references_of, HasLiteral};
ghost use Rattle.cdcl_core.specs.Implied.{clauses_of, BeginsAtRoot, level_of};
ghost use Rattle.cdcl_core.specs.Analysed.{AtConflict};
ghost use Rattle.cdcl_core.specs.Held.{AreNumbered};
ghost use Rattle.cdcl_core.specs.Searched.{IsPropagated};
ghost use Rattle.cdcl_core.specs.Solved.{TidyPropagation};

use crate::solver::Solver;
use clause_arena::{Memory, Ref};
use clause_model::Assignment;
use lrat_check::{Addition, Id};

impl Solver {
    /// The line that adds the clause learnt from the conflict.
    pub fn learn(
        &mut self,
        seen: &mut Assignment,
        low: usize,
        start: usize,
        conflict: Ref,
        id: Id,
    ) -> Result<Addition, Memory>
        requires root { BeginsAtRoot (level_of self.old.arena self.old.trail low) self.old.arena self.old.reasons.items self.old.trail }
        requires conflict { AtConflict self.old.arena self.old.reasons.items self.old.trail low start conflict }
        requires refs { self.old.refs.items ≡ references_of self.old.arena }
        requires ids { length self.old.ids.items ≡ length self.old.refs.items }
        requires size { length self.old.arena.chains ≤ 400000 }
        ensures fields { OnOk result (IsPropagated self.old self.new) }
        ensures root { OnOk result (BeginsAtRoot (level_of self.old.arena self.old.trail low) self.new.arena self.new.reasons.items self.new.trail) }
        ensures id { IfOk result (λ line. line.id ≡ id) }
        ensures known { IfOk result (λ line. All (HasLiteral self.old.arena) line.literals.items) }
        ensures asserting { IfOk result (λ line. IsAsserting (clauses_of self.old.arena) line.literals.items) }
        ensures tidy { IfOk result (λ line. (live : ℕ → Option (List ℕ)) → AreNumbered live (clauses_of self.old.arena) self.old.ids.items → (hints : List ℕ) × (line.hints.items ≡ map pos hints) × TidyPropagation live line.literals.items hints) }
    {
        // For the prover alone: the call's contract says that no two true literals are equal or contrary.
        let _trues = self.trail.len();
        let (literal, others) = self.analyse(seen, low, start, conflict)?;
        let mut literals = Vec::new(self.alloc);
        literals.push(literal)?;
        self.minimise(low, &mut literals, &others)?;
        let line = self.certify(seen, low, &literals, id)?;
        Ok(line)
    }
}
