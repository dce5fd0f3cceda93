//! A line of the log certifies its clause: propagation from the clause's negation ends in a conflict, and the hints name its reasons.

ghost use Rattle.std.specs.Prelude.{◌≡◌, ℕ, ◌≤◌, OnOk, IfOk, All, List, length, map, take, Contains, Option, pos};
ghost use Rattle.clause_model.specs.Clauses.{IsFalse};
ghost use Rattle.clause_arena.specs.Contents.{references_of, HasLiteral};
ghost use Rattle.cdcl_core.specs.Implied.{clauses_of, IsRefutable, BeginsAtRoot, level_of};
ghost use Rattle.cdcl_core.specs.Assumed.{CanFalsify};
ghost use Rattle.cdcl_core.specs.Held.{AreNumbered};
ghost use Rattle.cdcl_core.specs.Searched.{IsPropagated};
ghost use Rattle.cdcl_core.specs.Solved.{TidyPropagation};

use crate::assumption::{assume, back};
use crate::solver::Solver;
use clause_arena::Memory;
use clause_model::{Assignment, Literal};
use lrat_check::{Addition, Id};
use unit_propagation::propagate;

impl Solver {
    /// The line that adds the clause, which follows from those of the arena: its literals are made false on top of what is
    /// true before any decision, and the hints lead from there to a false clause.
    pub fn certify(
        &mut self,
        seen: &mut Assignment,
        low: usize,
        clause: &[Literal],
        id: Id,
    ) -> Result<Addition, Memory>
        requires root { BeginsAtRoot (level_of self.old.arena self.old.trail low) self.old.arena self.old.reasons.items self.old.trail }
        requires refs { self.old.refs.items ≡ references_of self.old.arena }
        requires ids { length self.old.ids.items ≡ length self.old.refs.items }
        requires size { length self.old.arena.chains ≤ 400000 }
        requires falsifiable { CanFalsify (length self.old.arena.chains) (take low self.old.trail) clause.now }
        requires refutable { IsRefutable (clauses_of self.old.arena) clause.now }
        requires fresh { All (λ l. IsFalse (take low self.old.trail) l → ⊥) clause.now }
        ensures fields { OnOk result (IsPropagated self.old self.new) }
        ensures root { OnOk result (BeginsAtRoot (level_of self.old.arena self.old.trail low) self.new.arena self.new.reasons.items self.new.trail) }
        ensures clauses { OnOk result (self.new.arena.clauses ≡ self.old.arena.clauses) }
        ensures id { IfOk result (λ line. line.id ≡ id) }
        ensures part { IfOk result (λ line. All (Contains clause.now) line.literals.items) }
        ensures whole { IfOk result (λ line. All (Contains line.literals.items) clause.now) }
        ensures known { IfOk result (λ line. All (HasLiteral self.old.arena) line.literals.items) }
        ensures tidy { IfOk result (λ line. (live : ℕ → Option (List ℕ)) → AreNumbered live (clauses_of self.old.arena) self.old.ids.items → (hints : List ℕ) × (line.hints.items ≡ map pos hints) × TidyPropagation live line.literals.items hints) }
    {
        back(&mut self.trail, &mut self.reasons, low);
        let is_true = assume(clause, &mut self.trail, &mut self.reasons)?;
        if is_true {
            unreachable!();
        }
        let high = self.trail.len();
        let Some(conflict) = propagate(&mut self.arena, &mut self.trail, &mut self.reasons, low)?
        else {
            // For the prover alone: the calls' contracts say that no two true literals are equal or contrary, and that the arena is whole.
            let _trues = self.trail.len();
            let _literals = self.arena.literals();
            unreachable!()
        };
        let givens = &self.trail.literals()[low..high];
        let line = self.derive(seen, givens, conflict, id)?;
        Ok(line)
    }
}
