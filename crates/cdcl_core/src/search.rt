//! One search for a model: decisions, each propagated, until all variables are set or a clause is false, from which one is learnt.

ghost use Rattle.std.specs.Prelude.{◌≡◌, ℕ, ◌+◌, ◌*◌, ◌<◌, ◌≤◌, OnOk, IfOk, IfSome, None, Some, All, Contains, length};
ghost use Rattle.clause_model.specs.Clauses.{IsUnset};
ghost use Rattle.unit_propagation.specs.Watching.{Rule};
ghost use Rattle.cdcl_core.specs.Implied.{clauses_of};
ghost use Rattle.step_ledger.specs.Counts.{RisesByAtLeast};
ghost use Rattle.cdcl_core.specs.Costs.{conflicts_in};
ghost use Rattle.cdcl_core.specs.Searched.{IsReady, EndsOver, GoesOn, IsSearched};

use crate::assumption::back;
use crate::order::{Order, is_unset};
use crate::solver::Solver;
use clause_arena::{Memory, Ref};
use clause_model::{Assignment, Literal};
use lrat_check::{Addition, Id};
use step_ledger::{Ledger, Steps};
use unit_propagation::propagate;

/// How a search ends.
#[derive(Drop)]
pub enum Ending {
    /// Each clause is true.
    Model,
    /// The empty clause follows.
    Refuted(Addition),
    /// A clause was learnt from a conflict.
    Taught(Addition),
}

/// An unset literal of the first `variables`: the one that the order proposes, else the negation of the first unset variable.
fn pick(order: &mut Order, variables: u32, trail: &Assignment) -> Option<Literal>
    requires few { variables ≤ 200000 }
    requires bounded { All (λ l. l < 2 * variables) trail.now }
    ensures none { result ≡ None → (l : ℕ) → l < 2 * variables → IsUnset trail.now l → ⊥ }
    ensures some { IfSome result (λ l. IsUnset trail.now l × (l < 2 * variables)) }
    ensures room { IfSome result (λ l. length trail.now < variables) }
{
    // For the prover alone: the call's contract says that no two true literals are equal or contrary.
    let _trues = trail.len();
    match order.propose(variables, trail) {
        Some(literal) => return Some(literal),
        None => {}
    }
    for variable in 0..variables {
        let literal = Literal::new(variable, true);
        if is_unset(trail, literal) {
            return Some(literal);
        }
    }
    None
}

impl Solver {
    /// Propagates before any decision, unless a clause is false already.
    fn settle(&mut self) -> Result<(), Memory>
        requires { IsReady self.old self.old.conflict }
        ensures fields { OnOk result (IsSearched self.old self.new) }
        ensures ready { OnOk result (IsReady self.new self.new.conflict) }
        ensures rule { OnOk result (self.new.conflict ≡ None → Rule self.new.arena self.new.trail) }
        ensures clauses { OnOk result (clauses_of self.new.arena ≡ clauses_of self.old.arena) }
        ensures grows { OnOk result (All (Contains self.new.trail) self.old.trail) }
    {
        match self.conflict {
            Some(_) => Ok(()),
            None => {
                self.conflict = propagate(&mut self.arena, &mut self.trail, &mut self.reasons, 0)?;
                // For the prover alone: the call's contract says that no two true literals are equal or contrary.
                let _trues = self.trail.len();
                Ok(())
            }
        }
    }

    /// The line that adds the empty clause, where a clause is false before any decision.
    fn refute(&self, seen: &mut Assignment, conflict: Ref, id: Id) -> Result<Ending, Memory>
        requires { IsReady self.now (Some conflict) }
        ensures ends { IfOk result (EndsOver (clauses_of self.now.arena) self.now.ids.items self.now.trail id self.now.trail) }
        ensures goes_on { IfOk result (GoesOn self.now self.now) }
    {
        let line = self.derive(seen, &[], conflict, id)?;
        Ok(Ending::Refuted(line))
    }

    /// Decides and propagates until each clause is true or one is false. At the start nothing is left to propagate.
    fn decide<L: Ledger>(
        &mut self,
        seen: &mut Assignment,
        id: Id,
        steps: &mut Steps<L>,
    ) -> Result<Ending, Memory>
        requires ready { IsReady self.old None }
        requires none { self.old.conflict ≡ None }
        requires rule { Rule self.old.arena self.old.trail }
        ensures fields { OnOk result (IsSearched self.old self.new) }
        ensures ends { IfOk result (EndsOver (clauses_of self.old.arena) self.old.ids.items self.old.trail id self.new.trail) }
        ensures goes_on { IfOk result (GoesOn self.old self.new) }
        ensures cost { steps.new ≤ steps.old + self.old.variables + 1 }
        ensures rises { IfOk result (λ ending. RisesByAtLeast steps.old steps.new (conflicts_in ending)) }
    {
        let low = self.trail.len();
        self.order.begin();
        'deciding: loop {
            // For the prover alone: the call's contract says that the arena is whole.
            let _literals = self.arena.literals();
            let start = self.trail.len();
            let Some(literal) = pick(&mut self.order, self.variables, &self.trail) else {
                return Ok(Ending::Model);
            };
            steps.tick();
            self.trail.set(literal)?;
            self.reasons.push(None)?;
            let conflict = propagate(&mut self.arena, &mut self.trail, &mut self.reasons, start)?;
            if let Some(conflict) = conflict {
                steps.tick();
                self.order.save(self.trail.literals());
                let line = self.learn(seen, low, start, conflict, id)?;
                self.order.note(seen.literals(), line.literals.len())?;
                back(&mut self.trail, &mut self.reasons, low);
                return Ok(Ending::Taught(line));
            }
        }
    }

    /// Searches for a model from what is true before any decision. `seen` is room for the literals that lead to a conflict.
    pub fn search<L: Ledger>(
        &mut self,
        seen: &mut Assignment,
        id: Id,
        steps: &mut Steps<L>,
    ) -> Result<Ending, Memory>
        requires { IsReady self.old self.old.conflict }
        ensures fields { OnOk result (IsSearched self.old self.new) }
        ensures ends { IfOk result (EndsOver (clauses_of self.old.arena) self.old.ids.items self.old.trail id self.new.trail) }
        ensures goes_on { IfOk result (GoesOn self.old self.new) }
        ensures cost { steps.new ≤ steps.old + self.old.variables + 1 }
        ensures rises { IfOk result (λ ending. RisesByAtLeast steps.old steps.new (conflicts_in ending)) }
    {
        self.settle()?;
        match self.conflict {
            Some(at) => {
                steps.tick();
                let ending = self.refute(seen, at, id)?;
                Ok(ending)
            }
            None => {
                let ending = self.decide(seen, id, steps)?;
                Ok(ending)
            }
        }
    }
}
