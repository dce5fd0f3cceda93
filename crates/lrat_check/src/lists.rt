//! Clauses in lists by one of their literals, so that only a few are tested for being contained in another.
ghost use Rattle.std.specs.Prelude.{◌≡◌, ℕ, ◌+◌, ◌^◌, ◌<◌, ◌≤◌, ◌++◌, ◌∷◌, ◌↔◌, List, [], All, Contains, IsTrue, OnOk, MatchOption, length, sum_by};
ghost use Rattle.step_ledger.specs.Counts.{RisesByAtLeast};
ghost use Rattle.clause_model.specs.Clauses.{IsNew};
ghost use Rattle.lrat_check.specs.Lists.{Holds, Keeps, listed, under};

use crate::clause::{Clause, is_none_part};
use clause_model::{Assignment, Literal};
use std::alloc::{AllocError, Global};
use std::marker::Model;
use step_ledger::{Ledger, Steps};

/// Clauses, each in the list of one of its literals. A clause that contains it has that literal too, so
/// a search through the lists of the larger clause's literals finds it.
#[derive(Drop)]
pub(crate) struct Lists {
    alloc: Global,
    lists: Vec<Vec<Clause>>,
    has_empty: bool,
}

impl Model for Lists {
    ghost use Rattle.lrat_check.specs.Lists.{ClauseLists, listed};

    ghost Value = { ClauseLists };

    ghost view = { λ l. record { lists = listed l.lists.items; has_empty = l.has_empty } };
}

impl Lists {
    /// No clause.
    pub(crate) fn new(alloc: Global) -> Self
        ensures { Holds result [] }
    {
        Lists {
            alloc,
            lists: Vec::new(alloc),
            has_empty: false,
        }
    }

    /// Keeps one more clause, in the shortest of the lists of its literals.
    pub(crate) fn keep(&mut self, clause: &[Literal]) -> Result<(), AllocError>
        ensures { OnOk result ((clauses : List (List ℕ)) → Holds self.old clauses → Holds self.new (clauses ++ clause.now ∷ [])) }
    {
        match rarest(&self.lists, clause) {
            None => self.has_empty = true,
            Some(literal) => {
                let kept = Clause::of(self.alloc, clause)?;
                keep_under(self.alloc, &mut self.lists, literal, kept)?;
            }
        }
        Ok(())
    }

    /// Whether the members contain none of the clauses.
    pub(crate) fn is_new<L: Ledger>(&self, members: &Assignment, steps: &mut Steps<L>) -> bool
        ensures new { (clauses : List (List ℕ)) → Holds self.now clauses → IsTrue result ↔ IsNew clauses members.now }
        ensures cost { (clauses : List (List ℕ)) → Holds self.now clauses → steps.new ≤ steps.old + sum_by length clauses }
        ensures rises { RisesByAtLeast steps.old steps.new 0 }
    {
        !self.has_empty && is_new_among(&self.lists, members, steps)
    }
}

/// The list of a literal.
fn list_of(lists: &[Vec<Clause>], literal: Literal) -> &[Clause]
    ensures { result.now ≡ under (listed lists.now) literal }
{
    match lists.get(literal.index()) {
        Some(list) => list.as_slice(),
        None => &[],
    }
}

/// The literal whose list is shortest, where there is one.
fn rarest(lists: &[Vec<Clause>], literals: &[Literal]) -> Option<Literal>
    ensures { MatchOption result (literals.now ≡ []) (Contains literals.now) }
{
    literals
        .iter()
        .copied()
        .min_by_key(|literal| list_of(lists, *literal).len())
}

/// Puts a clause into the list of a literal.
fn keep_under(
    alloc: Global,
    lists: &mut Vec<Vec<Clause>>,
    literal: Literal,
    clause: Clause,
) -> Result<(), AllocError>
    ensures { OnOk result (Keeps (listed lists.old.items) (listed lists.new.items) literal clause) }
{
    let at = literal.index();
    grow(alloc, lists, at)?;
    lists[at].push(clause)?;
    Ok(())
}

/// Adds empty lists up to the index.
fn grow(alloc: Global, lists: &mut Vec<Vec<Clause>>, at: usize) -> Result<(), AllocError>
    requires { at < 2 ^ 32 }
    ensures long { OnOk result (at < length lists.new.items) }
    ensures same { (l : ℕ) → under (listed lists.new.items) l ≡ under (listed lists.old.items) l }
    ensures lengths { sum_by (sum_by length) (listed lists.new.items) ≡ sum_by (sum_by length) (listed lists.old.items) }
{
    while lists.len() <= at {
        lists.push(Vec::new(alloc))?;
    }
    Ok(())
}

/// Whether in the lists of all members no clause has only members as literals.
fn is_new_among<L: Ledger>(
    lists: &[Vec<Clause>],
    members: &Assignment,
    steps: &mut Steps<L>,
) -> bool
    ensures new { IsTrue result ↔ All (λ l. IsNew (under (listed lists.now) l) members.now) members.now }
    ensures cost { steps.new ≤ steps.old + sum_by (sum_by length) (listed lists.now) }
    ensures rises { RisesByAtLeast steps.old steps.new 0 }
{
    let literals = members.literals();
    for literal in literals {
        if !is_none_part(list_of(lists, *literal), members, steps) {
            return false;
        }
    }
    true
}
