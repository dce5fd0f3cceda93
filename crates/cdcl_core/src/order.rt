//! The order of decisions is a heuristic that no contract rests on. Some searches go by the numbers of the variables, the
//! others by the latest conflicts, the variables of the last one first. Each variable takes the value
//! that it had last.
//!
//! Neither order is good for all formulas: the one by numbers needs a fifth of the other's conflicts where a
//! product is compared with shifts and sums, and twenty times as many where sums are compared. So they
//! alternate. The cost of a conflict grows with the square of the learnt clause's length,
//! since shortening the clause is most of the work; the searches by number may cost twice as much as the
//! others in all, so that an order whose clauses are long gets few conflicts.

ghost use Rattle.std.specs.Prelude.{◌*◌, ◌<◌, ◌≤◌, IfSome, IsTrue, ◌↔◌, ◌≡◌, ◌+◌, ◌^◌, ◌⊎◌};
ghost use Rattle.clause_model.specs.Clauses.{IsUnset};

use clause_arena::Memory;
use clause_model::{Assignment, Literal};
use std::alloc::Global;
use std::mem::swap;

/// Which variable is decided next, and how.
#[derive(Drop)]
pub struct Order {
    /// All variables, those of the latest conflicts first.
    ranked: Vec<u32>,
    /// Room for another ranking.
    spare: Vec<u32>,
    /// Whether the last conflict involved a variable; set only while they are ranked anew.
    is_involved: Vec<bool>,
    /// Whether this search goes by the numbers of the variables.
    by_number: bool,
    /// What the searches by number cost so far.
    number_cost: u64,
    /// What the others cost so far.
    rank_cost: u64,
    /// How many variables were looked at in this search.
    next: u32,
    /// Whether a variable was false when it had a value last.
    phases: Vec<bool>,
}

/// Whether a literal is neither true nor false.
pub fn is_unset(trail: &Assignment, literal: Literal) -> bool
    ensures { IsTrue result ↔ IsUnset trail.now literal }
{
    !trail.is_true(literal) && !trail.is_true(literal.negated())
}

/// Appends to a ranking the variables that are involved, or where `wanted` is false those that aren't, in their order.
fn rank(
    ranking: &mut Vec<u32>,
    variables: &[u32],
    is_involved: &[bool],
    wanted: bool,
) -> Result<(), Memory> {
    for variable in variables {
        let involved = is_involved
            .get(*variable as usize)
            .copied()
            .unwrap_or(false);
        if involved == wanted {
            ranking.push(*variable)?;
        }
    }
    Ok(())
}

impl Order {
    /// The order before any conflict: the last variables come first, since they depend on the others.
    pub fn new(alloc: Global, variables: u32) -> Result<Self, Memory> {
        let mut ranked = Vec::with_capacity(alloc, variables as usize)?;
        for variable in (0..variables).rev() {
            ranked.push(variable)?;
        }
        Ok(Order {
            ranked,
            spare: Vec::with_capacity(alloc, variables as usize)?,
            is_involved: vec![in alloc; false; variables as usize]?,
            by_number: false,
            number_cost: 0,
            rank_cost: 0,
            next: 0,
            phases: vec![in alloc; true; variables as usize]?,
        })
    }

    /// Begins another search.
    pub fn begin(&mut self) {
        self.next = 0;
        self.by_number = self.number_cost < self.rank_cost.saturating_mul(2);
    }

    fn literal(&self, variable: u32) -> Literal
        requires { variable < 2 ^ 31 }
        ensures { (result ≡ 2 * variable) ⊎ (result ≡ 2 * variable + 1) }
    {
        let phase = self.phases.get(variable as usize).copied().unwrap_or(true);
        if phase {
            Literal::new(variable, true)
        } else {
            Literal::new(variable, false)
        }
    }

    /// The variable at a place of this search's order.
    fn at(&self, place: u32) -> u32 {
        if self.by_number {
            return place;
        }
        self.ranked.get(place as usize).copied().unwrap_or(place)
    }

    /// The next unset literal, if there is one.
    pub fn propose(&mut self, variables: u32, trail: &Assignment) -> Option<Literal>
        requires { variables ≤ 200000 }
        ensures { IfSome result (λ l. IsUnset trail.now l × (l < 2 * variables)) }
    {
        while self.next < variables {
            let variable = self.at(self.next);
            self.next += 1;
            if variable < variables {
                let literal = self.literal(variable);
                if is_unset(trail, literal) {
                    return Some(literal);
                }
            }
        }
        None
    }

    /// Keeps the values of variables for later decisions (phase saving).
    pub fn save(&mut self, literals: &[Literal]) {
        for literal in literals {
            let negative = literal.index() % 2 == 1;
            if let Some(phase) = self.phases.get_mut(literal.variable() as usize) {
                *phase = negative;
            }
        }
    }

    /// Marks the variables of the literals as involved, or as not.
    fn mark(&mut self, literals: &[Literal], involved: bool) {
        for literal in literals {
            if let Some(mark) = self.is_involved.get_mut(literal.variable() as usize) {
                *mark = involved;
            }
        }
    }

    /// Brings the variables of the literals to the front. Both they and the others keep their order.
    fn bring_forward(&mut self, literals: &[Literal]) -> Result<(), Memory> {
        self.mark(literals, true);
        self.spare.clear();
        rank(&mut self.spare, &self.ranked, &self.is_involved, true)?;
        rank(&mut self.spare, &self.ranked, &self.is_involved, false)?;
        swap(&mut self.ranked, &mut self.spare);
        self.mark(literals, false);
        Ok(())
    }

    /// Takes note of a conflict that involved these literals, and from which a clause of `length` literals was learnt.
    pub fn note(&mut self, literals: &[Literal], length: usize) -> Result<(), Memory> {
        let cost = (length as u64).saturating_mul(length as u64);
        if self.by_number {
            self.number_cost = self.number_cost.saturating_add(cost);
        } else {
            self.rank_cost = self.rank_cost.saturating_add(cost);
        }
        self.bring_forward(literals)
    }
}
