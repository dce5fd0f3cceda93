//! Redundant literals are removed from a learnt clause.
//!
//! A literal is redundant where propagation from the negations of the others still ends in a false
//! clause. One pass is enough: where it doesn't, the assignment in which it ends shows that this
//! literal is needed, and it shows so as well once more literals are left out.
//!
//! The list of literals is halved recursively, so that literals which are false in two successive trials
//! are propagated once for both: the first half is tried with the second half false, and
//! then the second with the needed literals of the first false. Where those alone end in a false clause, a
//! whole half is left out at once.

ghost use Rattle.std.specs.Prelude.{◌≡◌, ℕ, ◌⊎◌, ◌++◌, OnOk, IfOk, All, List, length, take, Contains};
ghost use Rattle.clause_model.specs.Clauses.{AllFalse, IsFreed};
ghost use Rattle.clause_arena.specs.Contents.{HasLiteral};
ghost use Rattle.unit_propagation.specs.Watching.{Rule, IsLater};
ghost use Rattle.cdcl_core.specs.Implied.{clauses_of, IsRefutable, BeginsAtRoot, IsJustified, Level, level_of};
ghost use Rattle.cdcl_core.specs.Assumed.{CanFalsify};
ghost use Rattle.cdcl_core.specs.Searched.{IsPropagated};
ghost use Rattle.cdcl_core.specs.Minimal.{AreNeeded};

use crate::assumption::{back, deny};
use crate::solver::Solver;
use clause_arena::Memory;
use clause_model::Literal;

impl Solver {
    /// Those of the literals that the clause needs, where `denied` are made false as well.
    fn needed(&mut self, denied: &[Literal], literals: &[Literal]) -> Result<Vec<Literal>, Memory>
        requires root { (level : Level) × BeginsAtRoot level self.old.arena self.old.reasons.items self.old.trail }
        requires rule { Rule self.old.arena self.old.trail }
        requires known_denied { All (HasLiteral self.old.arena) denied.now }
        requires known { All (HasLiteral self.old.arena) literals.now }
        ensures fields { OnOk result (IsPropagated self.old self.new) }
        ensures trail { OnOk result (self.new.trail ≡ self.old.trail) }
        ensures reasons { OnOk result (self.new.reasons.items ≡ self.old.reasons.items) }
        ensures watches { OnOk result (IsLater self.old.arena self.old.trail self.old.reasons.items self.new.arena self.old.trail self.old.reasons.items) }
        ensures part { IfOk result (λ part. All (Contains literals.now) part.items) }
        ensures needed { IfOk result (λ part. (others : List ℕ) → IsJustified self.old.arena others self.old.reasons.items self.old.trail → AllFalse self.old.trail others → IsRefutable (clauses_of self.old.arena) ((others ++ denied.now) ++ literals.now) → AreNeeded (clauses_of self.old.arena) (others ++ denied.now) part.items) }
    {
        let mark = self.trail.len();
        let is_refuted = deny(&mut self.arena, &mut self.trail, &mut self.reasons, denied)?;
        if is_refuted {
            back(&mut self.trail, &mut self.reasons, mark);
            return Ok(Vec::new(self.alloc));
        }
        if literals.len() <= 1 {
            // For the prover alone: the calls' contracts say that no two true literals are equal or contrary, and that the arena is whole.
            let _trues = self.trail.len();
            let _whole = self.arena.literals();
            let part = Vec::from_slice(self.alloc, literals)?;
            back(&mut self.trail, &mut self.reasons, mark);
            return Ok(part);
        }
        let middle = literals.len() / 2;
        let first = &literals[..middle];
        let second = &literals[middle..];
        let mut part = self.needed(second, first)?;
        let rest = self.needed(&part, second)?;
        back(&mut self.trail, &mut self.reasons, mark);
        part.extend_from_slice(&rest)?;
        Ok(part)
    }

    /// Appends to `kept` the literals of `rest` that the clause needs: without one of them, propagation falsifies no clause.
    pub fn minimise(
        &mut self,
        low: usize,
        kept: &mut Vec<Literal>,
        rest: &[Literal],
    ) -> Result<(), Memory>
        requires root { BeginsAtRoot (level_of self.old.arena self.old.trail low) self.old.arena self.old.reasons.items self.old.trail }
        requires falsifiable { CanFalsify (length self.old.arena.chains) (take low self.old.trail) (kept.old.items ++ rest.now) }
        requires refutable { IsRefutable (clauses_of self.old.arena) (kept.old.items ++ rest.now) }
        ensures fields { OnOk result (IsPropagated self.old self.new) }
        ensures root { OnOk result (BeginsAtRoot (level_of self.old.arena self.old.trail low) self.new.arena self.new.reasons.items self.new.trail) }
        ensures refutable { OnOk result (IsRefutable (clauses_of self.old.arena) kept.new.items) }
        ensures freed { OnOk result (All (λ l. Contains kept.old.items l ⊎ IsFreed (clauses_of self.old.arena) kept.new.items l) kept.new.items) }
        ensures subset { OnOk result (All (Contains (kept.old.items ++ rest.now)) kept.new.items) }
        ensures first { OnOk result (take (length kept.old.items) kept.new.items ≡ kept.old.items) }
    {
        back(&mut self.trail, &mut self.reasons, low);
        let part = self.needed(kept, rest)?;
        kept.extend_from_slice(&part)?;
        Ok(())
    }
}
