//! Conflict analysis: the clause that is learnt is that of the first unique implication point.

ghost use Rattle.std.specs.Prelude.{◌≡◌, ◌<◌, ◌⊎◌, OnOk, IfOk, All, Any, Contains, IsTrue, ◌↔◌, ◌-◌};
ghost use Rattle.clause_model.specs.Clauses.{negated, AllFalse};
ghost use Rattle.cdcl_core.specs.Implied.{clauses_of};
ghost use Rattle.cdcl_core.specs.Analysed.{AtConflict, LearnsFrom, Sees};

use crate::solver::Solver;
use clause_arena::{Memory, Ref};
use clause_model::{Assignment, Literal};
use std::alloc::Global;

/// Adds a literal to the seen ones, if it is true.
fn see_one(seen: &mut Assignment, literal: Literal, trail: &Assignment) -> Result<(), Memory>
    requires { All (Contains trail.now) seen.old }
    ensures part { OnOk result (All (Contains trail.now) seen.new) }
    ensures grows { OnOk result (All (Contains seen.new) seen.old) }
    ensures seen { OnOk result (Contains trail.now literal → Contains seen.new literal) }
    ensures only { OnOk result (All (λ t. Contains seen.old t ⊎ (t ≡ literal)) seen.new) }
{
    if !trail.is_true(literal) {
        return Ok(());
    }
    if seen.is_true(literal) {
        return Ok(());
    }
    // For the prover alone: the call's contract says that no two true literals are equal or contrary.
    let _trues = trail.len();
    seen.set(literal)?;
    Ok(())
}

/// Adds to the seen literals each true one whose contrary the clause has.
pub fn see(seen: &mut Assignment, clause: &[u32], trail: &Assignment) -> Result<(), Memory>
    requires { All (Contains trail.now) seen.old }
    ensures { OnOk result (Sees trail.now clause.now seen.old seen.new) }
{
    for code in clause {
        let opposite = Literal::from_code(*code).negated();
        see_one(seen, opposite, trail)?;
    }
    Ok(())
}

/// Whether a literal of a part of the trail is seen. The search is from the end.
fn sees_some(seen: &Assignment, part: &[Literal]) -> bool
    ensures { IsTrue result ↔ Any (Contains seen.now) part.now }
{
    let mut at = part.len();
    while at > 0 {
        at -= 1;
        if seen.is_true(part[at]) {
            return true;
        }
    }
    false
}

/// The contraries of the seen literals of a part of the trail.
fn contraries(alloc: Global, seen: &Assignment, part: &[Literal]) -> Result<Vec<Literal>, Memory>
    ensures all { IfOk result (λ v. All (λ t. Contains seen.now t → Contains v.items (negated t)) part.now) }
    ensures only { IfOk result (λ v. AllFalse part.now v.items) }
{
    let mut found = Vec::new(alloc);
    for literal in part {
        if seen.is_true(*literal) {
            found.push(literal.negated())?;
        }
    }
    Ok(found)
}

impl Solver {
    /// The clause learnt from the conflict: its one literal of this decision level, and the others. `seen` is overwritten with
    /// the true literals that led to the conflict.
    pub fn analyse(
        &self,
        seen: &mut Assignment,
        low: usize,
        start: usize,
        conflict: Ref,
    ) -> Result<(Literal, Vec<Literal>), Memory>
        requires { AtConflict self.now.arena self.now.reasons.items self.now.trail low start conflict }
        ensures { IfOk result (λ learnt. LearnsFrom (clauses_of self.now.arena) self.now.trail low start learnt.0 learnt.1.items) }
    {
        seen.truncate(0);
        see(seen, self.arena.lits(conflict), &self.trail)?;
        let literals = self.trail.literals();
        let mut at = self.trail.len();
        while at > start {
            at -= 1;
            let literal = literals[at];
            if seen.is_true(literal) {
                if !sees_some(seen, &literals[start..at]) {
                    let others = contraries(self.alloc, seen, &literals[low..start])?;
                    return Ok((literal.negated(), others));
                }
                let reason = self.reasons[at];
                match reason {
                    Some(number) => see(seen, self.arena.lits(number), &self.trail)?,
                    None => unreachable!(),
                }
            }
        }
        unreachable!()
    }
}
