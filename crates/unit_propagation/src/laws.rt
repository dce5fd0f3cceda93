//! What follows from the rule of watches, as the contract of a function that does nothing.

ghost use Rattle.std.specs.Prelude.{ℕ, List};
ghost use Rattle.clause_model.specs.Clauses.{IsOpen};
ghost use Rattle.clause_arena.specs.Contents.{Content, IsWhole, literals_of};
ghost use Rattle.unit_propagation.specs.Watching.{IsWatched, IsAttached, Rule, RuleUpTo};
ghost use Rattle.clause_arena.specs.Compaction.{IsCompacted};

/// Under the rule of watches a clause with watches has a true literal or two unset ones.
pub fn watched_clauses_are_open()
    ensures { (content : Content) (a : List ℕ) (at : ℕ) → IsWhole content → IsWatched content at → Rule content a → IsOpen a (literals_of content at) }
{}

/// Compaction keeps the rule of watches, and that clauses watch two literals of their own.
pub fn compaction_keeps_the_rule()
    ensures rule { (earlier later : Content) (held moved : List ℕ) → IsWhole later → IsCompacted earlier held later moved → (p a : List ℕ) → RuleUpTo earlier p a → RuleUpTo later p a }
    ensures attached { (earlier later : Content) (held moved : List ℕ) → IsWhole later → IsCompacted earlier held later moved → IsAttached earlier → IsAttached later }
{}
