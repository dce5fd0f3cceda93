//! The log's line for a conflict: the clause that it proves, with hints.
//!
//! The hints are read off the trail from its end: the false clause, and before it the reason of each
//! literal whose contrary is in the clause of a later hint. So no hint is redundant.

ghost use Rattle.std.specs.Prelude.{◌≡◌, ℕ, ◌+◌, ◌<◌, IfOk, AllPairs, List, length, map, Contains, Option, Some, slice_get, get_or, pos};
ghost use Rattle.clause_model.specs.Clauses.{negated};
ghost use Rattle.cdcl_core.specs.Implied.{clauses_of};
ghost use Rattle.cdcl_core.specs.Held.{AreNumbered};
ghost use Rattle.cdcl_core.specs.Hinted.{IsDerivable};
ghost use Rattle.cdcl_core.specs.Solved.{RefutesTidily};

use crate::analysis::see;
use crate::solver::Solver;
use clause_arena::{Memory, Ref};
use clause_model::{Assignment, Literal};
use lrat_check::{Addition, Hint, Id};
use std::alloc::Global;

/// The place of a reference among ascending ones, by binary search.
pub fn place_of(refs: &[Ref], at: Ref) -> usize
    requires ascending { AllPairs (λ r s. r < s) refs.now }
    requires within { Contains refs.now at }
    ensures { slice_get refs.now result ≡ Some at }
{
    let mut low = 0;
    let mut high = refs.len();
    while high - low > 1 {
        let middle = low + (high - low) / 2;
        if refs[middle].offset() <= at.offset() {
            low = middle;
            continue;
        }
        high = middle;
    }
    low
}

/// The contraries of literals.
fn negations(alloc: Global, literals: &[Literal]) -> Result<Vec<Literal>, Memory>
    ensures { IfOk result (λ v. v.items ≡ map negated literals.now) }
{
    let mut found = Vec::new(alloc);
    for literal in literals {
        found.push(literal.negated())?;
    }
    Ok(found)
}

impl Solver {
    /// The line that adds the clause of the contraries of the given literals, from which propagation led to the conflict. `seen`
    /// is overwritten with the true literals that led there.
    pub fn derive(
        &self,
        seen: &mut Assignment,
        givens: &[Literal],
        conflict: Ref,
        id: Id,
    ) -> Result<Addition, Memory>
        requires { IsDerivable self.now givens.now conflict }
        ensures id { IfOk result (λ line. line.id ≡ id) }
        ensures literals { IfOk result (λ line. line.literals.items ≡ map negated givens.now) }
        ensures hints { IfOk result (λ line. (live : ℕ → Option (List ℕ)) → AreNumbered live (clauses_of self.now.arena) self.now.ids.items → (hints : List ℕ) × (line.hints.items ≡ map pos hints) × RefutesTidily live givens.now hints) }
    {
        // For the prover alone: the call's contract says that the arena is whole.
        let _whole = self.arena.literals();
        let literals = negations(self.alloc, givens)?;
        seen.truncate(0);
        see(seen, self.arena.lits(conflict), &self.trail)?;
        let mut hints = Vec::new(self.alloc);
        hints.push(self.hint_of(conflict))?;
        let trues = self.trail.literals();
        let mut at = self.trail.len();
        while at > 0 {
            at -= 1;
            if !seen.is_true(trues[at]) {
                continue;
            }
            let reason = self.reasons[at];
            match reason {
                Some(number) => {
                    see(seen, self.arena.lits(number), &self.trail)?;
                    hints.insert(0, self.hint_of(number))?;
                }
                None => {}
            }
        }
        Ok(Addition {
            id,
            literals,
            hints,
        })
    }

    /// The hint that names a clause.
    fn hint_of(&self, at: Ref) -> Hint
        requires ascending { AllPairs (λ r s. r < s) self.now.refs.items }
        requires within { Contains self.now.refs.items at }
        requires ids { length self.now.ids.items ≡ length self.now.refs.items }
        ensures { (k : ℕ) × (slice_get self.now.refs.items k ≡ Some at) × (result ≡ pos (get_or self.now.ids.items k 0)) }
    {
        Hint::new(self.ids[place_of(&self.refs, at)])
    }
}
