//! Clauses as the test of new clauses keeps them, laid out so that whether one is contained in another is found quickly.
ghost use Rattle.std.specs.Prelude.{◌≡◌, ℕ, ◌+◌, ◌≤◌, ◌↔◌, List, All, Contains, IsTrue, IfOk, length, sum_by};
ghost use Rattle.step_ledger.specs.Counts.{RisesByAtLeast};
ghost use Rattle.clause_model.specs.Clauses.{IsNew};

use clause_model::{Assignment, Literal};
use std::alloc::{AllocError, Global};
use std::marker::Model;
use step_ledger::{Ledger, Steps};

/// A clause. Its first literal is stored apart from the others, so that most clauses are found not to be
/// contained in another without a look at the rest.
#[derive(Drop)]
pub(crate) struct Clause {
    first: Option<Literal>,
    rest: Vec<Literal>,
}

impl Model for Clause {
    ghost use Rattle.std.specs.Prelude.{ℕ, List, ◌++◌};
    ghost use Rattle.std.specs.Option.{option_to_list};

    ghost Value = { List ℕ };

    ghost view = { λ c. option_to_list c.first ++ c.rest.items };
}

impl Clause {
    /// The clause of some literals.
    pub(crate) fn of(alloc: Global, literals: &[Literal]) -> Result<Clause, AllocError>
        ensures { IfOk result (λ clause. clause ≡ literals.now) }
    {
        match literals.split_first() {
            None => Ok(Clause {
                first: None,
                rest: Vec::new(alloc),
            }),
            Some((first, rest)) => Ok(Clause {
                first: Some(*first),
                rest: Vec::from_slice(alloc, rest)?,
            }),
        }
    }

    /// Whether each literal is a member, with a step for each that is looked at.
    fn is_part<L: Ledger>(&self, members: &Assignment, steps: &mut Steps<L>) -> bool
        ensures part { IsTrue result ↔ All (Contains members.now) self.now }
        ensures cost { steps.new ≤ steps.old + length self.now }
        ensures rises { RisesByAtLeast steps.old steps.new 0 }
    {
        if let Some(first) = self.first {
            steps.tick();
            if !members.is_true(first) {
                return false;
            }
        }
        are_members(&self.rest, members, steps)
    }
}

/// Whether each of the clauses has a literal that is no member, so that none is contained.
pub(crate) fn is_none_part<L: Ledger>(
    clauses: &[Clause],
    members: &Assignment,
    steps: &mut Steps<L>,
) -> bool
    ensures new { IsTrue result ↔ IsNew clauses.now members.now }
    ensures cost { steps.new ≤ steps.old + sum_by length clauses.now }
    ensures rises { RisesByAtLeast steps.old steps.new 0 }
{
    for clause in clauses {
        if clause.is_part(members, steps) {
            return false;
        }
    }
    true
}

/// Whether each literal is a member, with a step for each that is looked at.
fn are_members<L: Ledger>(literals: &[Literal], members: &Assignment, steps: &mut Steps<L>) -> bool
    ensures part { IsTrue result ↔ All (Contains members.now) literals.now }
    ensures cost { steps.new ≤ steps.old + length literals.now }
    ensures rises { RisesByAtLeast steps.old steps.new 0 }
{
    for literal in literals {
        steps.tick();
        if !members.is_true(*literal) {
            return false;
        }
    }
    true
}
