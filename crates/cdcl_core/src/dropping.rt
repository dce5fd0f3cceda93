//! Clauses that are true before any decision are dropped.
//!
//! Such a clause can't become unit or false any more; it is kept only while it is the reason of a literal. The
//! arena is compacted once dropped clauses have more than half of its words.

ghost use Rattle.std.specs.Prelude.{◌≡◌, ◌≢◌, ℕ, ◌<◌, OnOk, IfOk, IsTrue, ◌↔◌, AllPairs, Any, List, length, Contains, Some, None, slice_get, get_or, false, true};
ghost use Rattle.clause_arena.specs.Contents.{references_of};
ghost use Rattle.cdcl_core.specs.Implied.{clauses_of, IsNoReason};
ghost use Rattle.cdcl_core.specs.Held.{Covers};
ghost use Rattle.cdcl_core.specs.Dropped.{Remains, AreDropped, IsMarkedAt, IsRenamed};
ghost use Rattle.cdcl_core.specs.Searched.{IsBase, HasBase, IsReady};

use crate::hinting::place_of;
use crate::solver::Solver;
use clause_arena::{Arena, Memory, Ref};
use clause_model::{Assignment, Literal};
use lrat_check::Id;
use std::alloc::Global;

/// Whether a literal of the clause is true.
fn has_true(literals: &[u32], trail: &Assignment) -> bool
    ensures { IsTrue result ↔ Any (Contains trail.now) literals.now }
{
    for literal in literals {
        if trail.is_true(Literal::from_code(*literal)) {
            return true;
        }
    }
    false
}

/// Whether a clause may be dropped: a literal is true, and it is no reason.
fn is_spare(literals: &[u32], trail: &Assignment, is_reason: bool) -> bool
    ensures { IsTrue result ↔ (is_reason ≡ false) × Any (Contains trail.now) literals.now }
{
    if is_reason {
        return false;
    }
    has_true(literals, trail)
}

/// Marks the clauses that are reasons, by their places in `refs`.
fn mark_reasons(alloc: Global, refs: &[Ref], reasons: &[Option<Ref>]) -> Result<Vec<bool>, Memory>
    requires ascending { AllPairs (λ r s. r < s) refs.now }
    requires within { (k r : ℕ) → slice_get reasons.now k ≡ Some (Some r) → Contains refs.now r }
    ensures length { IfOk result (λ v. length v.items ≡ length refs.now) }
    ensures marked { IfOk result (λ v. (k r : ℕ) → slice_get reasons.now k ≡ Some (Some r) → IsMarkedAt refs.now v.items r) }
    ensures only { IfOk result (λ v. (j : ℕ) → get_or v.items j false ≡ true → IsNoReason reasons.now (get_or refs.now j 0) → ⊥) }
{
    let mut marks = vec![in alloc; false; refs.len()]?;
    for reason in reasons {
        match *reason {
            Some(at) => {
                let place = place_of(refs, at);
                marks[place] = true;
            }
            None => {}
        }
    }
    Ok(marks)
}

/// Drops the clauses that have a true literal and aren't reasons.
fn drop_spare(
    alloc: Global,
    arena: &mut Arena,
    refs: &[Ref],
    trail: &Assignment,
    reasons: &[Option<Ref>],
) -> Result<(), Memory>
    requires base { IsBase (clauses_of arena.old) (length arena.old.chains) arena.old refs.now reasons.now trail.now None }
    ensures base { OnOk result (IsBase (clauses_of arena.old) (length arena.old.chains) arena.new refs.now reasons.now trail.now None) }
    ensures dropped { OnOk result (AreDropped arena.new refs.now reasons.now trail.now (length refs.now)) }
{
    // For the prover alone: the call's contract says that the arena is whole.
    let _whole = arena.literals();
    let marks = mark_reasons(alloc, refs, reasons)?;
    for place in 0..refs.len() {
        let at = refs[place];
        let is_reason = marks[place];
        if is_spare(arena.lits(at), trail, is_reason) {
            arena.drop_clause(at);
        }
    }
    Ok(())
}

/// The clauses that aren't dropped.
#[derive(Drop)]
struct Remaining {
    refs: Vec<Ref>,
    ids: Vec<Id>,
    /// How many words the arena has for them.
    words: usize,
    /// How many words it has for the others.
    dropped_words: usize,
}

/// The clauses that aren't dropped, with their numbers.
fn live_clauses(alloc: Global, arena: &Arena, refs: &[Ref], ids: &[Id]) -> Result<Remaining, Memory>
    requires refs { refs.now ≡ references_of arena.now }
    requires ids { length ids.now ≡ length refs.now }
    ensures { IfOk result (λ v. Remains arena.now refs.now ids.now (length refs.now) v.refs.items v.ids.items) }
{
    // For the prover alone: the call's contract says that the arena is whole.
    let _whole = arena.literals();
    let mut kept = Vec::new(alloc);
    let mut names = Vec::new(alloc);
    let mut words: usize = 0;
    let mut dropped_words: usize = 0;
    for place in 0..refs.len() {
        let at = refs[place];
        let size = arena.lits(at).len().saturating_add(6);
        if arena.is_dropped(at) {
            dropped_words = dropped_words.saturating_add(size);
            continue;
        }
        words = words.saturating_add(size);
        kept.push(at)?;
        names.push(ids[place])?;
    }
    Ok(Remaining {
        refs: kept,
        ids: names,
        words,
        dropped_words,
    })
}

/// The new reference of a clause.
fn moved_to(kept: &[Ref], moved: &[Ref], at: Ref) -> Ref
    requires ascending { AllPairs (λ r s. r < s) kept.now }
    requires within { Contains kept.now at }
    requires as_many { length moved.now ≡ length kept.now }
    ensures { (j : ℕ) × (slice_get kept.now j ≡ Some at) × (slice_get moved.now j ≡ Some result) }
{
    moved[place_of(kept, at)]
}

/// The reasons, with each reference replaced by the new one.
fn rename(
    alloc: Global,
    kept: &[Ref],
    moved: &[Ref],
    reasons: &[Option<Ref>],
) -> Result<Vec<Option<Ref>>, Memory>
    requires ascending { AllPairs (λ r s. r < s) kept.now }
    requires within { (k r : ℕ) → slice_get reasons.now k ≡ Some (Some r) → Contains kept.now r }
    requires as_many { length moved.now ≡ length kept.now }
    ensures { IfOk result (λ v. IsRenamed kept.now moved.now reasons.now (length reasons.now) v.items) }
{
    let mut renamed = Vec::new(alloc);
    for reason in reasons {
        match *reason {
            Some(at) => renamed.push(Some(moved_to(kept, moved, at)))?,
            None => renamed.push(None)?,
        }
    }
    Ok(renamed)
}

impl Solver {
    /// Drops clauses that are true before any decision, if more literals are true than when this was last
    /// done. Where dropped clauses take more than half of the arena's words, the arena is compacted.
    pub fn drop_true(&mut self) -> Result<(), Memory>
        requires { IsReady self.old None }
        ensures fields { OnOk result (self.new ≡ record self.old { arena = self.new.arena; refs = self.new.refs; ids = self.new.ids; reasons = self.new.reasons; swept = self.new.swept }) }
        ensures base { OnOk result (HasBase (clauses_of self.new.arena) self.new None) }
        ensures swept { self.new.swept ≡ length self.old.trail }
        ensures dropped { OnOk result (self.old.swept ≢ length self.old.trail → AreDropped self.new.arena self.new.refs.items self.new.reasons.items self.old.trail (length self.new.refs.items)) }
        ensures covers { OnOk result ((clauses : List (List ℕ)) → Covers clauses (clauses_of self.old.arena) self.old.ids.items self.old.trail → Covers clauses (clauses_of self.new.arena) self.new.ids.items self.old.trail) }
    {
        if self.trail.len() == self.swept {
            return Ok(());
        }
        self.swept = self.trail.len();
        drop_spare(
            self.alloc,
            &mut self.arena,
            &self.refs,
            &self.trail,
            &self.reasons,
        )?;
        let rest = live_clauses(self.alloc, &self.arena, &self.refs, &self.ids)?;
        if rest.dropped_words <= rest.words {
            return Ok(());
        }
        // For the prover alone: the call's contract says that the arena is whole.
        let _whole = self.arena.literals();
        let mut moved = Vec::from_slice(self.alloc, &rest.refs)?;
        self.arena.compact(&mut moved)?;
        // For the prover alone: the call's contract says that the arena is whole.
        let _compacted = self.arena.literals();
        self.reasons = rename(self.alloc, &rest.refs, &moved, &self.reasons)?;
        self.refs = moved;
        self.ids = rest.ids;
        Ok(())
    }
}
