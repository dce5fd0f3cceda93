//! A log of a search that spent its budget must add only new clauses. All clauses are kept, deleted ones too, since a log could else add one
//! clause again and again.
ghost use Rattle.std.specs.Prelude.{◌≡◌, ℕ, ◌+◌, ◌≤◌, ◌++◌, ◌∷◌, ◌↔◌, List, [], IsTrue, IfOk, OnOk, length, sum_by};
ghost use Rattle.step_ledger.specs.Counts.{RisesByAtLeast};
ghost use Rattle.clause_model.specs.Clauses.{codes_of, HasDistinctVariables, IsNew};
ghost use Rattle.lrat_check.specs.Lists.{Holds};

use crate::checker::literals_of;
use crate::lists::Lists;
use clause_model::{Assignment, Literal};
use cnf_gates::{Formula, Memory};
use std::alloc::{AllocError, Global};
use std::marker::Model;
use step_ledger::{Ledger, Steps};

/// The clauses so far, those that were deleted included.
#[derive(Drop)]
pub struct KeptClauses {
    lists: Lists,
    members: Assignment,
}

impl Model for KeptClauses {
    ghost use Rattle.std.specs.Prelude.{◌≡◌, ℕ, List, []};
    ghost use Rattle.lrat_check.specs.Lists.{ClauseLists};

    ghost Value = { ClauseLists };

    ghost view = { λ c. c.lists };

    ghost invariant = { λ c. c.members ≡ [] };
}

impl KeptClauses {
    /// The clauses of a formula.
    pub fn of(alloc: Global, formula: &Formula) -> Result<Self, Memory>
        ensures { IfOk result (λ clauses. Holds clauses (codes_of formula.now.clauses)) }
    {
        let mut lists = Lists::new(alloc);
        for i in 0..formula.clauses() {
            let literals = literals_of(alloc, formula.clause(i + 1))?;
            lists.keep(&literals)?;
        }
        Ok(KeptClauses {
            lists,
            members: Assignment::new(alloc),
        })
    }

    /// Adds a clause if it contains none of those so far; the answer is whether it was added.
    pub fn add_new<L: Ledger>(
        &mut self,
        clause: &[Literal],
        steps: &mut Steps<L>,
    ) -> Result<bool, Memory>
        requires { HasDistinctVariables clause.now }
        ensures new { IfOk result (λ is_new. (clauses : List (List ℕ)) → Holds self.old clauses → IsTrue is_new ↔ IsNew clauses clause.now) }
        ensures added { IfOk result (λ is_new. IsTrue is_new → (clauses : List (List ℕ)) → Holds self.old clauses → Holds self.new (clauses ++ clause.now ∷ [])) }
        ensures cost { (clauses : List (List ℕ)) → Holds self.old clauses → steps.new ≤ steps.old + sum_by length clauses }
        ensures rises { RisesByAtLeast steps.old steps.new 0 }
    {
        let outcome = is_new(&self.lists, clause, &mut self.members, steps);
        self.members.truncate(0);
        let is_new = outcome?;
        if is_new {
            self.lists.keep(clause)?;
        }
        Ok(is_new)
    }
}

/// Whether the clause contains none of those kept. `members` is empty at the start, and has the clause's literals at the end.
fn is_new<L: Ledger>(
    lists: &Lists,
    clause: &[Literal],
    members: &mut Assignment,
    steps: &mut Steps<L>,
) -> Result<bool, AllocError>
    requires empty { members.old ≡ [] }
    requires distinct { HasDistinctVariables clause.now }
    ensures new { IfOk result (λ is_new. (clauses : List (List ℕ)) → Holds lists.now clauses → IsTrue is_new ↔ IsNew clauses clause.now) }
    ensures cost { (clauses : List (List ℕ)) → Holds lists.now clauses → steps.new ≤ steps.old + sum_by length clauses }
    ensures rises { RisesByAtLeast steps.old steps.new 0 }
{
    take_members(clause, members)?;
    Ok(lists.is_new(members, steps))
}

/// Makes the literals of the clause the members, of which there were none.
fn take_members(clause: &[Literal], members: &mut Assignment) -> Result<(), AllocError>
    requires empty { members.old ≡ [] }
    requires distinct { HasDistinctVariables clause.now }
    ensures { OnOk result (members.new ≡ clause.now) }
{
    for literal in clause {
        members.set(*literal)?;
    }
    Ok(())
}
