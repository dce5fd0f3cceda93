//! How a clause, from the formula or learnt, is added to the search: which two literals it watches, or that it is unit and set at once.

ghost use Rattle.std.specs.Prelude.{◌≡◌, ◌≢◌, ◌<◌, ◌++◌, ◌∷◌, [], OnOk, IfSome, None, All, length, Contains};
ghost use Rattle.clause_arena.specs.Contents.{HasLiteral};
ghost use Rattle.cdcl_core.specs.Implied.{clauses_of};
ghost use Rattle.cdcl_core.specs.Searched.{HasBase};

use crate::solver::Solver;
use clause_arena::Memory;
use clause_model::Literal;
use lrat_check::Id;
use unit_propagation::{attach, store};

/// A literal of the clause that isn't this one.
fn find_other(literals: &[u32], first: u32) -> Option<u32>
    ensures some { IfSome result (λ l. Contains literals.now l × (l ≢ first)) }
    ensures none { result ≡ None → All (λ l. l ≡ first) literals.now }
{
    for literal in literals {
        if *literal != first {
            return Some(*literal);
        }
    }
    None
}

impl Solver {
    /// Adds a clause under an id, before any decision. It watches two different literals
    /// of its own; where it has only one, that is made true, or the clause is the conflict where that is false.
    pub fn adopt(&mut self, literals: &[u32], id: Id) -> Result<(), Memory>
        requires base { HasBase (clauses_of self.old.arena) self.old self.old.conflict }
        requires some { 0 < length literals.now }
        requires known { All (HasLiteral self.old.arena) literals.now }
        ensures ids { OnOk result (self.new.ids.items ≡ self.old.ids.items ++ id ∷ []) }
        ensures grows { OnOk result (All (Contains self.new.trail) self.old.trail) }
        ensures base { OnOk result (HasBase (clauses_of self.old.arena ++ literals.now ∷ []) self.new self.new.conflict) }
        ensures variables { OnOk result (self.new.variables ≡ self.old.variables) }
    {
        self.ids.push(id)?;
        let first = literals[0];
        match find_other(literals, first) {
            Some(second) => {
                let at = attach(&mut self.arena, literals, first, second)?;
                // For the prover alone: the call's contract says that the arena is whole.
                let _whole = self.arena.literals();
                self.refs.push(at)?;
                Ok(())
            }
            None => {
                let at = store(&mut self.arena, literals)?;
                // For the prover alone: the call's contract says that the arena is whole.
                let _whole = self.arena.literals();
                self.refs.push(at)?;
                let literal = Literal::from_code(first);
                if self.trail.is_true(literal) {
                    return Ok(());
                }
                if self.trail.is_true(literal.negated()) {
                    self.conflict = Some(at);
                    return Ok(());
                }
                self.trail.set(literal)?;
                self.reasons.push(Some(at))?;
                Ok(())
            }
        }
    }
}
