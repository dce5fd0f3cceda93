//! Clauses are added to the arena: those with two different literals watch two of them, and those with one literal, which is set at once, watch nothing.
ghost use Rattle.std.specs.Prelude.{◌≢◌, ◌<◌, Contains, IfOk};
ghost use Rattle.clause_arena.specs.Contents.{HasLiteral, Watches};
ghost use Rattle.unit_propagation.specs.Watching.{IsAdded};

use clause_arena::{Arena, Memory, Ref};

/// Adds a clause that watches two different literals of its own.
pub fn attach(arena: &mut Arena, literals: &[u32], first: u32, second: u32) -> Result<Ref, Memory>
    requires first_known { HasLiteral arena.old first }
    requires second_known { HasLiteral arena.old second }
    requires first_in { Contains literals.now first }
    requires second_in { Contains literals.now second }
    requires different { first ≢ second }
    ensures added { IfOk result (λ at. IsAdded arena.old at literals.now arena.new) }
    ensures first { IfOk result (λ at. Watches arena.new at 0 first) }
    ensures second { IfOk result (λ at. Watches arena.new at 1 second) }
{
    // For the prover alone: the call's contract says that the arena is whole.
    let _count = arena.literals();
    let at = arena.push(literals)?;
    arena.watch(at, 0, first);
    arena.watch(at, 1, second);
    Ok(at)
}

/// Adds a clause that watches nothing.
pub fn store(arena: &mut Arena, literals: &[u32]) -> Result<Ref, Memory>
    ensures { IfOk result (λ at. IsAdded arena.old at literals.now arena.new) }
{
    // For the prover alone: the call's contract says that the arena is whole.
    let _count = arena.literals();
    let at = arena.push(literals)?;
    // For the prover alone: the call's contract says that the arena is whole.
    let _whole = arena.literals();
    Ok(at)
}
