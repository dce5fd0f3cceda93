//! Literals are assumed false and propagated, to find whether a clause follows; the trail can be cut back afterwards.

ghost use Rattle.std.specs.Prelude.{◌≡◌, ℕ, OnOk, IfOk, All, Any, Contains, List, take, true, false};
ghost use Rattle.clause_arena.specs.Contents.{HasLiteral};
ghost use Rattle.unit_propagation.specs.Watching.{Rule};
ghost use Rattle.cdcl_core.specs.Implied.{Level, BeginsAtRoot};
ghost use Rattle.cdcl_core.specs.Assumed.{IsAssumed, IsDenied};

use clause_arena::{Arena, Memory, Ref};
use clause_model::{Assignment, Literal};
use unit_propagation::propagate;

/// Cuts the trail back to its first `low` literals, with their reasons.
pub fn back(trail: &mut Assignment, reasons: &mut Vec<Option<Ref>>, low: usize)
    ensures trail { trail.new ≡ take low trail.old }
    ensures reasons { reasons.new.items ≡ take low reasons.old.items }
{
    trail.truncate(low);
    reasons.truncate(low);
}

/// Makes each literal false, without a reason, until one is true; the answer is whether one is.
pub fn assume(
    literals: &[Literal],
    trail: &mut Assignment,
    reasons: &mut Vec<Option<Ref>>,
) -> Result<bool, Memory>
    ensures tried { OnOk result ((tried : List ℕ) × All (Contains literals.now) tried × IsAssumed tried reasons.old.items trail.old reasons.new.items trail.new) }
    ensures each { IfOk result (λ is_true. is_true ≡ false → IsAssumed literals.now reasons.old.items trail.old reasons.new.items trail.new) }
    ensures one { IfOk result (λ is_true. is_true ≡ true → Any (Contains trail.new) literals.now) }
{
    for literal in literals {
        if trail.is_true(*literal) {
            return Ok(true);
        }
        let opposite = literal.negated();
        if !trail.is_true(opposite) {
            trail.set(opposite)?;
            reasons.push(None)?;
        }
    }
    Ok(false)
}

/// Makes each literal false and propagates, from a state in which nothing is left to propagate; the answer is
/// whether a literal is true or a clause is then false.
pub fn deny(
    arena: &mut Arena,
    trail: &mut Assignment,
    reasons: &mut Vec<Option<Ref>>,
    literals: &[Literal],
) -> Result<bool, Memory>
    requires root { (level : Level) × BeginsAtRoot level arena.old reasons.old.items trail.old }
    requires rule { Rule arena.old trail.old }
    requires known { All (HasLiteral arena.old) literals.now }
    ensures { IfOk result (λ is_refuted. IsDenied literals.now arena.old trail.old reasons.old.items arena.new trail.new reasons.new.items is_refuted) }
{
    let mark = trail.len();
    let is_true = assume(literals, trail, reasons)?;
    if is_true {
        return Ok(true);
    }
    match propagate(arena, trail, reasons, mark)? {
        Some(_) => Ok(true),
        None => Ok(false),
    }
}
