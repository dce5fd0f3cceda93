//! What follows from the definitions, as the contract of a function that does nothing.

ghost use Rattle.std.specs.Prelude.{ℕ, List, Option};
ghost use Rattle.clause_model.specs.Clauses.{ReverseUnitPropagation};
ghost use Rattle.cdcl_core.specs.Solved.{TidyPropagation};

/// Hints without a redundant one are accepted by reverse unit propagation.
pub fn tidy_hints_are_accepted()
    ensures { (live : ℕ → Option (List ℕ)) (clause hints : List ℕ) → TidyPropagation live clause hints → ReverseUnitPropagation live clause hints }
{}
