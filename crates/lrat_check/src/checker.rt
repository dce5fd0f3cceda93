//! The checker itself. It keeps each live clause under its id and trusts no line: a clause is added only where it follows by its hints.
ghost use Rattle.std.specs.Prelude.{◌≡◌, ℕ, ◌+◌, ◌≤◌, ◌⊎◌, map, unsigned_abs, OnOk, OnErr, IfErr, IfOk, Bool, true, false, [], All, Any};
ghost use Rattle.clause_model.specs.Clauses.{code_of, codes_of, negated, hint_lengths};
ghost use Rattle.lrat_check.specs.Live.{clause_at, listed, Adds};
ghost use Rattle.lrat_check.specs.Checking.{State, live_at, Starts, AddsClause, DeletesClauses, Accepts, HoldsAt};
ghost use Rattle.lrat_check.specs.Faults.{IsFaultOf};
ghost use Rattle.lrat_check.specs.Text.{content_of, addition, deletion, Suffice};
ghost use Rattle.lrat_check.specs.Costs.{cost_of, Counts};
ghost use Rattle.cnf_gates.specs.Meaning.{all_true};
ghost use Rattle.lrat_check.specs.Numbers.{is_negative};

use crate::deletion::{delete, find_dead};
use crate::fault::LineFault;
use crate::line::{Addition, Deletion, Hint, Line};
use crate::propagation::check;
use clause_model::{Assignment, Literal};
use cnf_gates::{Formula, Memory};
use std::alloc::{AllocError, Global};
use std::collections::HashMap;
use std::marker::Model;
use step_ledger::{Ledger, Steps};

/// A formula with the clauses that were added to it and are still live.
#[derive(Drop)]
pub struct Checker {
    alloc: Global,
    live: HashMap<u64, Vec<Literal>>,
    last: u64,
    refuted: bool,
    assignment: Assignment,
}

impl Model for Checker {
    ghost Value = { State };

    ghost view = { λ c. record { entries = listed c.live; last = c.last; refuted = c.refuted } };

    ghost invariant = { λ c. c.assignment ≡ [] };
}

impl Checker {
    /// A checker whose live clauses are those of the formula, numbered from 1.
    pub fn new(alloc: Global, formula: &Formula) -> Result<Self, Memory>
        ensures starts { IfOk result (Starts (codes_of formula.now.clauses)) }
        ensures sound { IfOk result (λ checker. (v : ℕ → Bool) → all_true v formula.now.clauses ≡ true → HoldsAt v checker) }
    {
        Checker::begin(alloc, formula)
    }

    /// Whether an empty clause was added or is in the formula, which then has no model.
    pub fn refuted(&self) -> bool
        ensures value { result ≡ self.now.refuted }
        ensures sound { (v : ℕ → Bool) → HoldsAt v self.now → result ≡ false }
    {
        self.refuted
    }

    /// Adds or deletes clauses as the line says, where each added clause follows from the live ones
    /// by its hints, and each deleted one is live. A line with a fault changes nothing. Each look at
    /// a literal of a hint's clause is a step.
    pub fn add<L: Ledger>(&mut self, line: &Line, steps: &mut Steps<L>) -> Result<(), LineFault>
        ensures ok { OnOk result (Accepts self.old (content_of line.now) self.new) }
        ensures sound { (v : ℕ → Bool) → HoldsAt v self.old → HoldsAt v self.new }
        ensures err { IfErr result (λ e. (e ≡ LineFault.Memory) ⊎ IsFaultOf self.old (content_of line.now) e) }
        ensures unchanged { OnErr result (self.new ≡ self.old) }
        ensures cost { steps.new ≤ steps.old + cost_of self.old (content_of line.now) }
        ensures count { OnOk result (Counts self.old (content_of line.now) steps.old steps.new) }
        ensures fault_count { IfErr result (λ e. (e ≡ LineFault.Memory) ⊎ Counts self.old (content_of line.now) steps.old steps.new) }
    {
        self.accept(line, steps)
    }

    fn begin(alloc: Global, formula: &Formula) -> Result<Self, Memory>
        ensures { IfOk result (Starts (codes_of formula.now.clauses)) }
    {
        let mut live = HashMap::new(alloc);
        let mut refuted = false;
        for i in 0..formula.clauses() {
            let literals = literals_of(alloc, formula.clause(i + 1))?;
            refuted = refuted || literals.is_empty();
            insert(&mut live, i + 1, literals)?;
        }
        Ok(Checker {
            alloc,
            live,
            last: formula.clauses(),
            refuted,
            assignment: Assignment::new(alloc),
        })
    }

    fn accept<L: Ledger>(&mut self, line: &Line, steps: &mut Steps<L>) -> Result<(), LineFault>
        ensures ok { OnOk result (Accepts self.old (content_of line.now) self.new) }
        ensures err { IfErr result (λ e. (e ≡ LineFault.Memory) ⊎ IsFaultOf self.old (content_of line.now) e) }
        ensures unchanged { OnErr result (self.new ≡ self.old) }
        ensures cost { steps.new ≤ steps.old + cost_of self.old (content_of line.now) }
        ensures count { OnOk result (Counts self.old (content_of line.now) steps.old steps.new) }
        ensures fault_count { IfErr result (λ e. (e ≡ LineFault.Memory) ⊎ Counts self.old (content_of line.now) steps.old steps.new) }
    {
        match line {
            Line::Addition(addition) => {
                self.add_clause(addition, steps)?;
                Ok(())
            }
            Line::Deletion(deletion) => self.delete_clauses(deletion),
        }
    }
}

impl Checker {
    /// Adds a clause, and returns how many of its hints were needed.
    pub(crate) fn add_clause<L: Ledger>(
        &mut self,
        line: &Addition,
        steps: &mut Steps<L>,
    ) -> Result<usize, LineFault>
        ensures ok { OnOk result (AddsClause self.old line.now.id line.now.literals.items line.now.hints.items self.new) }
        ensures used { IfOk result (Suffice (live_at self.old) (map negated line.now.literals.items) (map unsigned_abs line.now.hints.items)) }
        ensures err { IfErr result (λ e. (e ≡ LineFault.Memory) ⊎ IsFaultOf self.old (addition line.now.id line.now.literals.items line.now.hints.items) e) }
        ensures unchanged { OnErr result (self.new ≡ self.old) }
        ensures cost { steps.new ≤ steps.old + hint_lengths (live_at self.old) (map unsigned_abs line.now.hints.items) }
        ensures count { OnOk result (Counts self.old (addition line.now.id line.now.literals.items line.now.hints.items) steps.old steps.new) }
        ensures fault_count { IfErr result (λ e. (e ≡ LineFault.Memory) ⊎ Counts self.old (addition line.now.id line.now.literals.items line.now.hints.items) steps.old steps.new) }
    {
        let id = u64::from(line.id.number());
        if id <= self.last {
            return Err(LineFault::Order);
        }
        if has_minus(&line.hints) {
            return Err(LineFault::Rat);
        }
        let outcome = check(
            &self.live,
            &line.literals,
            &line.hints,
            &mut self.assignment,
            steps,
        );
        self.assignment.truncate(0);
        let used = outcome?;
        let literals = Vec::from_slice(self.alloc, &line.literals)?;
        insert(&mut self.live, id, literals)?;
        self.last = id;
        self.refuted = self.refuted || line.literals.is_empty();
        Ok(used)
    }

    /// Deletes clauses, where each is live.
    pub(crate) fn delete_clauses(&mut self, line: &Deletion) -> Result<(), LineFault>
        ensures ok { OnOk result (DeletesClauses self.old line.now.ids.items self.new) }
        ensures err { IfErr result (λ e. (e ≡ LineFault.Memory) ⊎ IsFaultOf self.old (deletion line.now.id line.now.ids.items) e) }
        ensures unchanged { OnErr result (self.new ≡ self.old) }
    {
        match find_dead(self.alloc, &self.live, &line.ids)? {
            Some(place) => Err(LineFault::Dead(place)),
            None => {
                delete(&mut self.live, &line.ids);
                Ok(())
            }
        }
    }
}

/// The literals that the numbers name.
pub(crate) fn literals_of(alloc: Global, numbers: &[i32]) -> Result<Vec<Literal>, AllocError>
    ensures { IfOk result (λ literals. literals.items ≡ map code_of numbers.now) }
{
    numbers
        .iter()
        .map(|n| Literal::from_number(*n))
        .collect(alloc)
}

fn has_minus(hints: &[Hint]) -> bool
    ensures none { result ≡ false → All (λ h. is_negative h ≡ false) hints.now }
    ensures some { result ≡ true → Any (λ h. is_negative h ≡ true) hints.now }
{
    hints.iter().any(|hint| hint.is_negative())
}

fn insert(
    live: &mut HashMap<u64, Vec<Literal>>,
    id: u64,
    literals: Vec<Literal>,
) -> Result<(), AllocError>
    ensures ok { OnOk result (Adds (clause_at live.old) (clause_at live.new) id literals.items) }
    ensures unchanged { OnErr result (live.new.entries ≡ live.old.entries) }
{
    live.insert(id, literals)?;
    Ok(())
}
