//! Formulas keep their clauses in the order in which they were added, since a proof's hints name them by their number.
ghost use Rattle.std.specs.Prelude.{◌≡◌, ◌≤◌, ◌-◌, ◌++◌, ◌∷◌, [], length, map, slice_get, Some, OnOk, OnErr, All};

use crate::errors::Memory;
use std::alloc::Global;
use std::marker::Model;

/// A formula in conjunctive normal form: a list of clauses, each a list of literals. The
/// variables are numbered from 1; a literal is a variable's number, negated where the literal is
/// negative.
#[derive(Drop)]
pub struct Formula {
    variables: u32,
    clauses: Vec<Vec<i32>>,
}

impl Model for Formula {
    ghost use Rattle.std.specs.Prelude.{map, ◌≤◌};
    ghost use Rattle.cnf_gates.specs.Cnf.{Cnf, AreClauses};

    ghost Value = { Cnf };

    ghost view = { λ f. record { variables = f.variables; clauses = map (λ c. c.items) f.clauses.items } };

    ghost invariant = { λ f. (f.variables ≤ 200000) × AreClauses (map (λ c. c.items) f.clauses.items) };
}

impl Formula {
    ghost use Rattle.cnf_gates.specs.Cnf.{IsLiteral, AreLiterals, AreClauses};

    /// A formula with this many variables and no clause.
    pub fn new(alloc: Global, variables: u32) -> Formula
        requires { variables ≤ 200000 }
        ensures { result ≡ record { variables = variables; clauses = [] } }
    {
        Formula {
            variables,
            clauses: Vec::new(alloc),
        }
    }

    /// The formula of these clauses.
    pub(crate) fn of(variables: u32, clauses: Vec<Vec<i32>>) -> Formula
        requires variables { variables ≤ 200000 }
        requires clauses { AreClauses (map (λ c. c.items) clauses.items) }
        ensures { result ≡ record { variables = variables; clauses = map (λ c. c.items) clauses.items } }
    {
        Formula { variables, clauses }
    }

    /// Adds a clause behind the others.
    pub fn push_clause(&mut self, clause: Vec<i32>) -> Result<(), Memory>
        requires { AreLiterals clause.items }
        ensures ok { OnOk result (self.new ≡ record { variables = self.old.variables; clauses = self.old.clauses ++ clause.items ∷ [] }) }
        ensures err { OnErr result (self.new ≡ self.old) }
    {
        self.clauses.push(clause)?;
        Ok(())
    }

    /// How many variables there are.
    pub fn variables(&self) -> u32
        ensures count { result ≡ self.now.variables }
        ensures within { result ≤ 200000 }
    {
        self.variables
    }

    /// How many clauses there are.
    pub fn clauses(&self) -> u64
        ensures { result ≡ length self.now.clauses }
    {
        self.clauses.len() as u64
    }

    /// A clause by its number, from 1 on.
    pub fn clause(&self, number: u64) -> &[i32]
        requires first { 1 ≤ number }
        requires last { number ≤ length self.now.clauses }
        ensures clause { slice_get self.now.clauses (number - 1) ≡ Some result.now }
        ensures literals { All IsLiteral result.now }
    {
        self.clauses[(number - 1) as usize].as_slice()
    }
}
