//! The clause that each id in a proof names, in the formula or among the additions. Deletions are ignored, so no
//! addition's clause is copied or moved: trimming looks them up here.
ghost use Rattle.std.specs.Prelude.{◌≡◌, ℕ, ◌<◌, All, AllPairs, IfOk, IfSome, IsTrue, MatchOption, Some, None, ◌↔◌, length, map, slice_index_or};
ghost use Rattle.clause_model.specs.Clauses.{codes_of, numbered};
ghost use Rattle.lrat_check.specs.Text.{id_of, HasEmpty};
ghost use Rattle.lrat_check.specs.Ending.{add_of, clause_of, literals_in, slices_in};

use crate::checker::literals_of;
use crate::line::Addition;
use crate::propagation::Clauses;
use clause_model::Literal;
use cnf_gates::Formula;
use std::alloc::{AllocError, Global};

/// The formula's clauses, and additions in the order of their ids.
#[derive(Drop)]
pub(crate) struct Meanings<'a> {
    pub(crate) given: Vec<Vec<Literal>>,
    pub(crate) additions: Vec<&'a Addition>,
    pub(crate) ids: Vec<u64>,
    clauses: Vec<&'a [Literal]>,
    ghost ids_are: { ids.items ≡ map (λ a. id_of (add_of a)) additions.items },
    ghost clauses_are: { slices_in clauses.items ≡ map clause_of additions.items },
    ghost in_order: { AllPairs (λ id later. id < later) ids.items },
    ghost above: { All (λ id. length given.items < id) ids.items },
}

impl<'a> Meanings<'a> {
    /// The additions' ids must ascend and be above the number of the formula's clauses.
    pub(crate) fn new(
        alloc: Global,
        given: Vec<Vec<Literal>>,
        additions: Vec<&'a Addition>,
    ) -> Result<Self, AllocError>
        requires in_order { AllPairs (λ id later. id < later) (map (λ a. id_of (add_of a)) additions.items) }
        requires above { All (λ id. length given.items < id) (map (λ a. id_of (add_of a)) additions.items) }
        ensures given { IfOk result (λ m. m.given ≡ given) }
        ensures additions { IfOk result (λ m. m.additions ≡ additions.entry) }
    {
        let ids = ids_of(alloc, &additions)?;
        let clauses = clauses_of(alloc, &additions)?;
        Ok(Meanings {
            given,
            additions,
            ids,
            clauses,
        })
    }
}

/// The ids of additions.
fn ids_of(alloc: Global, additions: &[&Addition]) -> Result<Vec<u64>, AllocError>
    ensures { IfOk result (λ ids. ids.items ≡ map (λ a. id_of (add_of a)) additions.now) }
{
    additions
        .iter()
        .map(|addition| u64::from(addition.id.number()))
        .collect(alloc)
}

/// The clauses of additions in one vector, which saves an indirection at each look-up.
fn clauses_of<'a>(
    alloc: Global,
    additions: &[&'a Addition],
) -> Result<Vec<&'a [Literal]>, AllocError>
    ensures { IfOk result (λ clauses. slices_in clauses.items ≡ map clause_of additions.now) }
{
    let mut clauses = Vec::with_capacity(alloc, additions.len())?;
    for addition in additions {
        clauses.push(addition.literals.as_slice())?;
    }
    Ok(clauses)
}

/// The clauses of the formula.
pub(crate) fn given_clauses(
    alloc: Global,
    formula: &Formula,
) -> Result<Vec<Vec<Literal>>, AllocError>
    ensures { IfOk result (λ given. literals_in given.items ≡ codes_of formula.now.clauses) }
{
    let mut given = Vec::new(alloc);
    for i in 0..formula.clauses() {
        given.push(literals_of(alloc, formula.clause(i + 1))?)?;
    }
    Ok(given)
}

/// Whether one of the clauses is empty.
pub(crate) fn has_empty(given: &[Vec<Literal>]) -> bool
    ensures { IsTrue result ↔ HasEmpty (literals_in given.now) }
{
    for clause in given {
        if clause.is_empty() {
            return true;
        }
    }
    false
}

/// The clause of the formula with a number.
fn given_at(given: &[Vec<Literal>], number: u64) -> Option<&[Literal]>
    ensures { MatchOption result (numbered (literals_in given.now) number ≡ None) (λ clause. numbered (literals_in given.now) number ≡ Some clause.now) }
{
    if number == 0 {
        return None;
    }
    match given.get(number as usize - 1) {
        None => None,
        Some(clause) => Some(clause.as_slice()),
    }
}

/// The place of an id among ascending ones. Consecutive ids need no search, nor does an id below all.
pub(crate) fn place_of(ids: &[u64], id: u64) -> Option<usize>
    ensures within { IfSome result (λ place. place < length ids.now) }
    ensures place { AllPairs (λ id later. id < later) ids.now → MatchOption result ((k : ℕ) → k < length ids.now → slice_index_or ids.now k 0 ≡ id → ⊥) (λ place. (place < length ids.now) × (slice_index_or ids.now place 0 ≡ id)) }
{
    if ids.is_empty() || id < ids[0] {
        return None;
    }
    let guess = (id - ids[0]) as usize;
    if guess < ids.len() && ids[guess] == id {
        return Some(guess);
    }
    match ids.binary_search(&id) {
        Ok(place) => Some(place),
        Err(_) => None,
    }
}

impl Clauses for Meanings<'_> {
    ghost use Rattle.lrat_check.specs.Meant.{meant_by};

    ghost at = { meant_by };

    fn clause(&self, id: u64) -> Option<&[Literal]> {
        if id <= self.given.len() as u64 {
            return given_at(&self.given, id);
        }
        match place_of(&self.ids, id) {
            None => None,
            Some(place) => Some(self.clauses[place]),
        }
    }
}
