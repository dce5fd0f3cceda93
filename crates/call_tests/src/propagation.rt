//! Tests propagation, which requires that the watches are consistent: units with their reasons, and a clause that becomes false.
ghost use Rattle.std.specs.Prelude.{◌≡◌, ◌≢◌, ◌<◌, IfOk, All, length, get_or};
ghost use Rattle.clause_arena.specs.Contents.{HasLiteral};
ghost use Rattle.unit_propagation.specs.Watching.{IsAttached, IsKnown};

use clause_arena::{Arena, Memory, Ref};
use clause_model::{Assignment, Literal};
use std::alloc::Global;
use std::test::Fail;
use unit_propagation::{attach, propagate};

/// An arena with three variables and no clause.
fn three_variables(alloc: Global) -> Result<Arena, Memory>
    ensures attached { IfOk result IsAttached }
    ensures known { IfOk result IsKnown }
    ensures size { IfOk result (λ a. length a.chains ≡ 6) }
{
    Arena::new(alloc, 3)
}

/// Adds a clause, of which the first two literals are watched.
fn add(arena: &mut Arena, literals: &[u32]) -> Result<Ref, Memory>
    requires attached { IsAttached arena.old }
    requires known { IsKnown arena.old }
    requires two { 1 < length literals.now }
    requires different { get_or literals.now 0 0 ≢ get_or literals.now 1 0 }
    requires literals { All (HasLiteral arena.old) literals.now }
    ensures attached { IfOk result (λ at. IsAttached arena.new) }
    ensures known { IfOk result (λ at. IsKnown arena.new) }
    ensures size { IfOk result (λ at. length arena.new.chains ≡ length arena.old.chains) }
{
    let at = attach(arena, literals, literals[0], literals[1])?;
    Ok(at)
}

/// The literals of a trail, each by its code and with its reason.
fn told(
    alloc: Global,
    trail: &Assignment,
    reasons: &[Option<Ref>],
) -> Result<Vec<(u32, Option<Ref>)>, Memory> {
    let mut told = Vec::new(alloc);
    for (literal, reason) in trail.literals().iter().zip(reasons.iter()) {
        told.push((literal.code(), *reason))?;
    }
    Ok(told)
}

/// Decides a literal and propagates: the clause that became false, if any, and the trail, each literal by its code and with its reason.
fn follow(
    alloc: Global,
    arena: &mut Arena,
    literal: u32,
) -> Result<(Option<Ref>, Vec<(u32, Option<Ref>)>), Memory>
    requires attached { IsAttached arena.old }
    requires known { IsKnown arena.old }
    requires literal { HasLiteral arena.old literal }
{
    let mut trail = Assignment::new(alloc);
    trail.set(Literal::from_code(literal))?;
    let mut reasons = Vec::new(alloc);
    reasons.push(None)?;
    let conflict = propagate(arena, &mut trail, &mut reasons, 0)?;
    Ok((conflict, told(alloc, &trail, &reasons)?))
}

// The literals a, b and c have the codes 0, 2 and 4, their negations 1, 3 and 5. From the clauses (a or b or c) and (a or not c) it follows with not a that c
// is false, and then that b is true.
#[test]
fn units_follow_with_their_reasons(rt: HostRuntime) -> Result<(), Fail> {
    let alloc = rt.alloc();
    let mut arena = three_variables(alloc)?;
    let first = add(&mut arena, &[0, 2, 4])?;
    let second = add(&mut arena, &[0, 5])?;
    let (conflict, found) = follow(alloc, &mut arena, 1)?;
    assert!(rt; conflict.is_none());
    assert_eq!(rt;
        found.as_slice(),
        [(1, None), (5, Some(second)), (2, Some(first))].as_slice()
    );
    Ok(())
}

// With the further clause (not b or c) one of the clauses becomes false.
#[test]
fn a_false_clause_is_told(rt: HostRuntime) -> Result<(), Fail> {
    let alloc = rt.alloc();
    let mut arena = three_variables(alloc)?;
    add(&mut arena, &[0, 2, 4])?;
    add(&mut arena, &[0, 5])?;
    let third = add(&mut arena, &[3, 4])?;
    let (conflict, _) = follow(alloc, &mut arena, 1)?;
    assert_eq!(rt; conflict, Some(third));
    Ok(())
}
