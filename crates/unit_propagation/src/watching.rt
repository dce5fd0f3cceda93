//! Propagation: for each literal that became false its chain of watches is walked. A watch stays or moves, or its clause is unit or false.
ghost use Rattle.std.specs.Prelude.{◌≡◌, ◌≢◌, ℕ, ◌+◌, ◌-◌, ◌<◌, ◌≤◌, ◌⊎◌, List, length, take, Contains, All, IfOk, OnOk, IfSome, slice_get, Option, Some, None, true, false};
ghost use Rattle.clause_model.specs.Clauses.{negated, IsFalse, AllFalse};
ghost use Rattle.clause_arena.specs.Contents.{HasClause, HasLiteral, Watches, IsWhole, literals_of, IsBetween, IsAfter};
ghost use Rattle.unit_propagation.specs.declared.watching.WatchOutcome.TheVariants.{Kept, Moved, Conflict};
ghost use Rattle.unit_propagation.specs.Watching.{IsAttached, IsKnown, IsOtherTrue, Rule, RuleUpTo, IsLater, IsMoved};

use clause_arena::{Arena, Memory, Ref};
use clause_model::{Assignment, Literal};

/// The literal that the other slot watches.
fn other_of(arena: &Arena, at: Ref, slot: u8) -> u32
    requires clause { HasClause arena.now at }
    requires slot { slot < 2 }
    requires attached { IsAttached arena.now }
    requires watches { (literal : ℕ) × Watches arena.now at slot literal }
    ensures { Watches arena.now at (1 - slot) result }
{
    match arena.watched(at, 1 - slot) {
        Some(literal) => literal,
        None => 0,
    }
}

/// What happens to a watch whose literal has become false.
enum WatchOutcome {
    /// It stays, and the other watched literal is now true.
    Kept,
    /// Its slot watches another literal.
    Moved,
    /// The clause is false.
    Conflict,
}

/// Whether a literal isn't `other`, and isn't false.
fn is_free(literal: u32, other: u32, assignment: &Assignment) -> bool
    ensures free { result ≡ true → (literal ≢ other) × (IsFalse assignment.now literal → ⊥) }
    ensures bound { result ≡ false → (literal ≡ other) ⊎ IsFalse assignment.now literal }
{
    if literal == other {
        return false;
    }
    !assignment.is_true(Literal::from_code(literal).negated())
}

/// A literal of a clause, other than `other`, that isn't false.
fn find_free(literals: &[u32], other: u32, assignment: &Assignment) -> Option<u32>
    ensures some { IfSome result (λ l. Contains literals.now l × (l ≢ other) × (IsFalse assignment.now l → ⊥)) }
    ensures none { result ≡ None → All (λ l. (l ≡ other) ⊎ IsFalse assignment.now l) literals.now }
{
    for literal in literals {
        if is_free(*literal, other, assignment) {
            return Some(*literal);
        }
    }
    None
}

/// The watch that follows this one in its chain.
fn following(arena: &Arena, watch: (Ref, u8)) -> Option<(Ref, u8)>
    requires { (literal : ℕ) × Watches arena.now watch.0 watch.1 literal }
    ensures { (literal : ℕ) (earlier later : List (ℕ × ℕ)) → IsBetween arena.now literal earlier watch later → result ≡ slice_get later 0 }
{
    let (at, slot) = watch;
    arena.next_watch(at, slot)
}

/// Keeps a watch of a false literal where the other watched literal is true, moves it where a further literal
/// of the clause isn't false, and else makes the other one true, or reports a conflict where that is false.
fn visit(
    arena: &mut Arena,
    assignment: &mut Assignment,
    reasons: &mut Vec<Option<Ref>>,
    falsified: u32,
    before: Option<(Ref, u8)>,
    watch: (Ref, u8),
) -> Result<WatchOutcome, Memory>
    requires whole { IsWhole arena.old }
    requires aligned { length reasons.old.items ≡ length assignment.old }
    requires attached { IsAttached arena.old }
    requires known { IsKnown arena.old }
    requires falsified { IsFalse assignment.old falsified }
    requires after { (seen : List (ℕ × ℕ)) × ((rest : List (ℕ × ℕ)) × IsAfter arena.old before watch falsified seen rest) }
    ensures whole { IsWhole arena.new }
    ensures later { OnOk result (IsLater arena.old assignment.old reasons.old.items arena.new assignment.new reasons.new.items) }
    ensures kept { IfOk result (λ v. v ≡ Kept → (arena.new ≡ arena.old) × IsOtherTrue arena.new assignment.new watch.0 watch.1) }
    ensures moved { IfOk result (λ v. v ≡ Moved → (assignment.new ≡ assignment.old) × IsMoved arena.old arena.new assignment.old falsified before watch) }
    ensures conflict { IfOk result (λ v. v ≡ Conflict → (arena.new ≡ arena.old) × HasClause arena.new watch.0 × AllFalse assignment.new (literals_of arena.new watch.0)) }
{
    let (at, slot) = watch;
    let other = other_of(arena, at, slot);
    let literal = Literal::from_code(other);
    if assignment.is_true(literal) {
        return Ok(WatchOutcome::Kept);
    }
    match find_free(arena.lits(at), other, assignment) {
        Some(free) => {
            // For the prover alone: the call's contract says that no two true literals are equal or contrary.
            let _trues = assignment.len();
            arena.move_watch(before, at, slot, free);
            // For the prover alone: the call's contract says that the arena is whole.
            let _literals = arena.literals();
            Ok(WatchOutcome::Moved)
        }
        None => {
            if assignment.is_true(literal.negated()) {
                return Ok(WatchOutcome::Conflict);
            }
            assignment.set(literal)?;
            reasons.push(Some(at))?;
            Ok(WatchOutcome::Kept)
        }
    }
}

/// Walks the chain of a literal that has become false, up to a false clause, which is the answer.
fn walk(
    arena: &mut Arena,
    assignment: &mut Assignment,
    reasons: &mut Vec<Option<Ref>>,
    falsified: u32,
) -> Result<Option<Ref>, Memory>
    requires whole { IsWhole arena.old }
    requires aligned { length reasons.old.items ≡ length assignment.old }
    requires attached { IsAttached arena.old }
    requires known { IsKnown arena.old }
    requires literal { HasLiteral arena.old falsified }
    requires falsified { IsFalse assignment.old falsified }
    ensures whole { IsWhole arena.new }
    ensures later { OnOk result (IsLater arena.old assignment.old reasons.old.items arena.new assignment.new reasons.new.items) }
    ensures done { IfOk result (λ conflict. conflict ≡ None → (p : List ℕ) → ((k : ℕ) → Contains p k → Contains assignment.old k) → ((at slot literal : ℕ) → Watches arena.old at slot literal → Contains p (negated literal) → (literal ≡ falsified) ⊎ IsOtherTrue arena.old assignment.old at slot) → RuleUpTo arena.new p assignment.new) }
    ensures conflict { IfOk result (λ conflict. (at : ℕ) → conflict ≡ Some at → HasClause arena.new at × AllFalse assignment.new (literals_of arena.new at)) }
{
    let mut before: Option<(Ref, u8)> = None;
    let mut next = arena.first_watch(falsified);
    while let Some(watch) = next {
        let (at, slot) = watch;
        let last = before;
        next = following(arena, (at, slot));
        match visit(arena, assignment, reasons, falsified, last, (at, slot))? {
            WatchOutcome::Kept => before = Some((at, slot)),
            WatchOutcome::Moved => (),
            WatchOutcome::Conflict => return Ok(Some(at)),
        }
    }
    Ok(None)
}

/// Propagates the literals of the trail from a place on to the end, and notes beside each new
/// literal its reason, the clause that was unit; the answer is a false clause, if there is one.
pub fn propagate(
    arena: &mut Arena,
    assignment: &mut Assignment,
    reasons: &mut Vec<Option<Ref>>,
    from: usize,
) -> Result<Option<Ref>, Memory>
    requires aligned { length reasons.old.items ≡ length assignment.old }
    requires attached { IsAttached arena.old }
    requires known { IsKnown arena.old }
    requires literals { All (HasLiteral arena.old) assignment.old }
    requires from { from ≤ length assignment.old }
    requires rule { RuleUpTo arena.old (take from assignment.old) assignment.old }
    ensures later { OnOk result (IsLater arena.old assignment.old reasons.old.items arena.new assignment.new reasons.new.items) }
    ensures done { IfOk result (λ conflict. conflict ≡ None → Rule arena.new assignment.new) }
    ensures conflict { IfOk result (λ conflict. (at : ℕ) → conflict ≡ Some at → HasClause arena.new at × AllFalse assignment.new (literals_of arena.new at)) }
{
    let mut head = from;
    while head < assignment.len() {
        // For the prover alone: the call's contract says that the arena is whole.
        let _count = arena.literals();
        let falsified = assignment.literals()[head].negated();
        head += 1;
        match walk(arena, assignment, reasons, falsified.code())? {
            Some(at) => return Ok(Some(at)),
            None => (),
        }
    }
    Ok(None)
}
