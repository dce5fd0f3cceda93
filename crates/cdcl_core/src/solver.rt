//! The solver's state as one record, so that the contract of each step of the search can say which fields it changes.

ghost use Rattle.std.specs.Prelude.{◌≡◌, [], IfOk};
ghost use Rattle.cdcl_core.specs.Searched.{HasBase};

use crate::order::Order;
use clause_arena::{Arena, Memory, Ref};
use clause_model::Assignment;
use lrat_check::Id;
use std::alloc::Global;

/// What a solver knows of its clauses.
#[derive(Drop)]
pub struct Solver {
    /// Where its memory comes from.
    pub alloc: Global,
    /// How many variables there are.
    pub variables: u32,
    /// The clauses of the formula and those that were learnt, with their watches. It is compacted only before any decision.
    pub arena: Arena,
    /// The references of the arena's clauses, in their order.
    pub refs: Vec<Ref>,
    /// The ids of these clauses in the log.
    pub ids: Vec<Id>,
    /// The true literals, in the order in which they became so; between searches all follow from the clauses.
    pub trail: Assignment,
    /// For each literal of the trail the clause by which it became true, none for one that was decided or assumed.
    pub reasons: Vec<Option<Ref>>,
    /// A clause that is false before any decision; there is none while decisions are made.
    pub conflict: Option<Ref>,
    /// Which variable is decided next, and how.
    pub order: Order,
    /// How many literals were true when clauses were dropped last.
    pub swept: usize,
}

impl Solver {
    /// A solver without clauses.
    pub fn new(alloc: Global, variables: u32) -> Result<Self, Memory>
        ensures base { IfOk result (λ s. HasBase [] s s.conflict) }
        ensures ids { IfOk result (λ s. s.ids.items ≡ []) }
        ensures variables { IfOk result (λ s. s.variables ≡ variables) }
    {
        Ok(Solver {
            alloc,
            variables,
            arena: Arena::new(alloc, variables)?,
            refs: Vec::new(alloc),
            ids: Vec::new(alloc),
            trail: Assignment::new(alloc),
            reasons: Vec::new(alloc),
            conflict: None,
            order: Order::new(alloc, variables)?,
            swept: 0,
        })
    }
}
