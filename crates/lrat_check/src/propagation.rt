//! The one rule of proof, reverse unit propagation by hints. There is no search, so the time for a line is linear in the clauses that it names.
ghost use Rattle.std.specs.Prelude.{◌≡◌, ℕ, ◌+◌, ◌≤◌, ◌⊎◌, List, Option, Some, None, map, take, unsigned_abs, MatchOption, OnOk, IfErr, IfOk, [], length};
ghost use Rattle.clause_model.specs.Clauses.{negated, HasDistinctVariables, Refutes, ReverseUnitPropagation, Stop, StopsAs, hint_lengths};
ghost use Rattle.clause_model.specs.Standings.{StandsAs};
ghost use Rattle.step_ledger.specs.Counts.{RisesBy};
ghost use Rattle.lrat_check.specs.Live.{clause_at};
ghost use Rattle.lrat_check.specs.Costs.{LooksAt, IsPartOf};
ghost use Rattle.lrat_check.specs.Faults.{fault_of};
ghost use Rattle.lrat_check.specs.Text.{Suffice};

use crate::fault::LineFault;
use crate::line::Hint;
use clause_model::{Assignment, Literal, Standing, standing_with};
use std::alloc::AllocError;
use std::collections::HashMap;
use step_ledger::{Ledger, Steps};

/// Clauses, each under an id.
pub trait Clauses {
    ghost at: { Self → ℕ → Option (List ℕ) };

    /// The clause under an id.
    fn clause(&self, id: u64) -> Option<&[Literal]>
        ensures { MatchOption result (at self.now id ≡ None) (λ clause. at self.now id ≡ Some clause.now) };
}

impl Clauses for HashMap<u64, Vec<Literal>> {
    ghost at = { clause_at };

    fn clause(&self, id: u64) -> Option<&[Literal]> {
        match self.get(&id) {
            None => None,
            Some(clause) => Some(clause.as_slice()),
        }
    }
}

/// How a clause stands, with a step for each literal that is looked at.
fn counted_standing_of<L: Ledger>(
    clause: &[Literal],
    assignment: &Assignment,
    steps: &mut Steps<L>,
) -> Standing
    ensures standing { StandsAs assignment.now clause.now result }
    ensures cost { RisesBy steps.old steps.new (length clause.now) }
{
    let mut standing = Standing::Conflict;
    for literal in clause {
        steps.tick();
        standing = standing_with(standing, *literal, assignment);
    }
    standing
}

/// Follows the hints in order until a clause is false, and returns how many it used.
fn refute<C: Clauses, L: Ledger>(
    live: &C,
    hints: &[Hint],
    assignment: &mut Assignment,
    steps: &mut Steps<L>,
) -> Result<usize, LineFault>
    ensures ok { OnOk result (Refutes (C.at live.now) assignment.old (map unsigned_abs hints.now)) }
    ensures used { IfOk result (Suffice (C.at live.now) assignment.old (map unsigned_abs hints.now)) }
    ensures err { IfErr result (λ e. (e ≡ LineFault.Memory) ⊎ ((stop : Stop) × StopsAs (C.at live.now) assignment.old (map unsigned_abs hints.now) 1 stop × (e ≡ fault_of stop))) }
    ensures cost { steps.new ≤ steps.old + hint_lengths (C.at live.now) (map unsigned_abs hints.now) }
    ensures fewest { (later : ℕ → Option (List ℕ)) (n : ℕ) → IsPartOf (C.at live.now) later → Suffice later assignment.old (map unsigned_abs hints.now) n → steps.new ≤ steps.old + hint_lengths later (take n (map unsigned_abs hints.now)) }
    ensures count { OnOk result ((n : ℕ) × LooksAt (C.at live.now) assignment.old (map unsigned_abs hints.now) n × RisesBy steps.old steps.new n) }
    ensures fault_count { IfErr result (λ e. (e ≡ LineFault.Memory) ⊎ ((n : ℕ) × LooksAt (C.at live.now) assignment.old (map unsigned_abs hints.now) n × RisesBy steps.old steps.new n)) }
{
    let mut place = 0;
    for hint in hints {
        place += 1;
        match live.clause(hint.id()) {
            None => return Err(LineFault::Dead(place)),
            Some(clause) => match counted_standing_of(clause, assignment, steps) {
                Standing::Conflict => return Ok(place),
                Standing::Unit(literal) => assignment.set(literal)?,
                Standing::Open => return Err(LineFault::Hint(place)),
            },
        }
    }
    Err(LineFault::NoConflict)
}

/// Makes each literal of the clause false.
fn assume_false(literals: &[Literal], assignment: &mut Assignment) -> Result<(), AllocError>
    requires empty { assignment.old ≡ [] }
    requires distinct { HasDistinctVariables literals.now }
    ensures { OnOk result (assignment.new ≡ map negated literals.now) }
{
    for literal in literals {
        assignment.set(literal.negated())?;
    }
    Ok(())
}

/// Whether the clause follows by its hints, and how many of them were used. The assignment must be empty at first, and isn't cleared at the end.
pub fn check<C: Clauses, L: Ledger>(
    live: &C,
    literals: &[Literal],
    hints: &[Hint],
    assignment: &mut Assignment,
    steps: &mut Steps<L>,
) -> Result<usize, LineFault>
    requires empty { assignment.old ≡ [] }
    requires distinct { HasDistinctVariables literals.now }
    ensures ok { OnOk result (ReverseUnitPropagation (C.at live.now) literals.now (map unsigned_abs hints.now)) }
    ensures used { IfOk result (Suffice (C.at live.now) (map negated literals.now) (map unsigned_abs hints.now)) }
    ensures err { IfErr result (λ e. (e ≡ LineFault.Memory) ⊎ ((stop : Stop) × StopsAs (C.at live.now) (map negated literals.now) (map unsigned_abs hints.now) 1 stop × (e ≡ fault_of stop))) }
    ensures cost { steps.new ≤ steps.old + hint_lengths (C.at live.now) (map unsigned_abs hints.now) }
    ensures fewest { (later : ℕ → Option (List ℕ)) (n : ℕ) → IsPartOf (C.at live.now) later → Suffice later (map negated literals.now) (map unsigned_abs hints.now) n → steps.new ≤ steps.old + hint_lengths later (take n (map unsigned_abs hints.now)) }
    ensures count { OnOk result ((n : ℕ) × LooksAt (C.at live.now) (map negated literals.now) (map unsigned_abs hints.now) n × RisesBy steps.old steps.new n) }
    ensures fault_count { IfErr result (λ e. (e ≡ LineFault.Memory) ⊎ ((n : ℕ) × LooksAt (C.at live.now) (map negated literals.now) (map unsigned_abs hints.now) n × RisesBy steps.old steps.new n)) }
{
    assume_false(literals, assignment)?;
    refute(live, hints, assignment, steps)
}
