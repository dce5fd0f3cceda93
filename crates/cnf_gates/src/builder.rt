//! The builder makes each gate once: gates are looked up by key, so that the two sides of a formula share what they have in common.
ghost use Rattle.std.specs.Prelude.{◌≡◌, ◌<◌, ◌≤◌, ◌↔◌, map, IfOk, OnErr, Err, Ok};

use crate::bit::{Bit, Gate, LIMIT, Signal, Variable};
use crate::clauses::{clause_of, clauses_of};
use crate::errors::{GateError, Memory};
use crate::formula::Formula;
use indexmap::IndexMap;
use std::alloc::Global;
use std::marker::Model;

/// Builds clauses gate by gate, with one gate for each key.
///
/// Variables are numbered from 1 as they are made, and clauses stand in the order in which they
/// were added. A bit that is handed in is a constant or a literal of one of the builder's
/// variables; the laws of an operation hold for such bits alone. An operation that answers an
/// error leaves the builder as it was: `Limit` comes exactly where a new variable is needed and
/// `LIMIT` of them exist.
#[derive(Drop)]
pub struct Builder {
    alloc: Global,
    variables: u32,
    clauses: Vec<Vec<i32>>,
    gates: IndexMap<Gate, Variable>,
}

impl Model for Builder {
    ghost use Rattle.std.specs.Prelude.{map, ◌≤◌};
    ghost use Rattle.cnf_gates.specs.Cnf.{AreClauses};
    ghost use Rattle.cnf_gates.specs.Gates.{Built};

    ghost Value = { Built };

    ghost view = { λ b. record { variables = b.variables; clauses = map (λ c. c.items) b.clauses.items; gates = b.gates.entries } };

    ghost invariant = { λ b. (b.variables ≤ 200000) × AreClauses (map (λ c. c.items) b.clauses.items) };
}

impl Builder {
    ghost use Rattle.std.specs.Prelude.{◌≡◌, ◌↔◌, IfOk, OnOk, OnErr, Err};
    ghost use Rattle.cnf_gates.specs.Gates.{Built, nothing_built, gate_of, and_of, or_of, xor_of, choice_of, ite_of, input_of, or_clause_of, formula_of, IsPast};

    /// A builder that has built nothing.
    pub fn new(alloc: Global) -> Builder
        ensures { result ≡ nothing_built }
    {
        Builder {
            alloc,
            variables: 0,
            clauses: Vec::new(alloc),
            gates: IndexMap::new(alloc),
        }
    }

    /// The output of a gate, which is made if there is none of this key yet.
    fn gate(&mut self, gate: Gate) -> Result<Bit, GateError>
        ensures ok { IfOk result (λ bit. (self.new, bit) ≡ gate_of self.old gate) }
        ensures limit { (result ≡ Err GateError.Limit) ↔ IsPast self.old (gate_of self.old gate) }
        ensures err { OnErr result (self.new ≡ self.old) }
    {
        if let Some(found) = self.gates.get(&gate) {
            return Ok(Bit::Signed(Signal::positive(*found)));
        }
        if self.variables == LIMIT {
            return Err(GateError::Limit);
        }
        let output = Variable::new(self.variables);
        let mut added = clauses_of(self.alloc, &gate, output)?;
        self.clauses.reserve(added.len())?;
        self.gates.insert(gate, output)?;
        self.clauses.append(&mut added)?;
        self.variables += 1;
        Ok(Bit::Signed(Signal::positive(output)))
    }

    /// The conjunction of two bits: a constant, one of them, or a gate's bit.
    pub fn and(&mut self, a: Bit, b: Bit) -> Result<Bit, GateError>
        ensures ok { IfOk result (λ bit. (self.new, bit) ≡ and_of self.old a b) }
        ensures limit { (result ≡ Err GateError.Limit) ↔ IsPast self.old (and_of self.old a b) }
        ensures err { OnErr result (self.new ≡ self.old) }
    {
        match (&a, &b) {
            (Bit::Constant(false), _) => Ok(a),
            (Bit::Constant(true), _) => Ok(b),
            (_, Bit::Constant(false)) => Ok(b),
            (_, Bit::Constant(true)) => Ok(a),
            (Bit::Signed(x), Bit::Signed(y)) => {
                if x == y {
                    Ok(a)
                } else if *x == y.contrary() {
                    Ok(Bit::Constant(false))
                } else if x < y {
                    self.gate(Gate::And(*x, *y))
                } else {
                    self.gate(Gate::And(*y, *x))
                }
            }
        }
    }

    /// The disjunction of two bits.
    pub fn or(&mut self, a: Bit, b: Bit) -> Result<Bit, GateError>
        ensures ok { IfOk result (λ bit. (self.new, bit) ≡ or_of self.old a b) }
        ensures limit { (result ≡ Err GateError.Limit) ↔ IsPast self.old (or_of self.old a b) }
        ensures err { OnErr result (self.new ≡ self.old) }
    {
        let both = self.and(a.not(), b.not())?;
        Ok(both.not())
    }

    /// Whether two bits differ: the gate is that of their variables, negated where the signs differ.
    pub fn xor(&mut self, a: Bit, b: Bit) -> Result<Bit, GateError>
        ensures ok { IfOk result (λ bit. (self.new, bit) ≡ xor_of self.old a b) }
        ensures limit { (result ≡ Err GateError.Limit) ↔ IsPast self.old (xor_of self.old a b) }
        ensures err { OnErr result (self.new ≡ self.old) }
    {
        match (&a, &b) {
            (Bit::Constant(value), _) => Ok(b.negated_if(*value)),
            (_, Bit::Constant(value)) => Ok(a.negated_if(*value)),
            (Bit::Signed(x), Bit::Signed(y)) => {
                let differ = x.is_negative() != y.is_negative();
                let (x, y) = (x.variable(), y.variable());
                if x == y {
                    return Ok(Bit::Constant(differ));
                }
                let gate = if x < y {
                    self.gate(Gate::Xor(x, y))?
                } else {
                    self.gate(Gate::Xor(y, x))?
                };
                Ok(gate.negated_if(differ))
            }
        }
    }

    /// The choice between two bits by a signal.
    fn choice(&mut self, c: &Signal, t: &Bit, e: &Bit) -> Result<Bit, GateError>
        ensures ok { IfOk result (λ bit. (self.new, bit) ≡ choice_of self.old c.now t.now e.now) }
        ensures limit { (result ≡ Err GateError.Limit) ↔ IsPast self.old (choice_of self.old c.now t.now e.now) }
        ensures err { OnErr result (self.new ≡ self.old) }
    {
        match (t, e) {
            (Bit::Constant(true), _) => self.or(Bit::Signed(*c), *e),
            (Bit::Constant(false), _) => self.and(Bit::Signed(c.contrary()), *e),
            (_, Bit::Constant(true)) => self.or(Bit::Signed(c.contrary()), *t),
            (_, Bit::Constant(false)) => self.and(Bit::Signed(*c), *t),
            (Bit::Signed(x), Bit::Signed(y)) => {
                if *x == y.contrary() {
                    self.xor(Bit::Signed(*c), *e)
                } else if c.is_negative() {
                    self.gate(Gate::Ite(c.variable(), *y, *x))
                } else {
                    self.gate(Gate::Ite(c.variable(), *x, *y))
                }
            }
        }
    }

    /// `t` where `c` holds, and else `e`. Where this amounts to a conjunction, a disjunction or a
    /// difference, that gate is made instead.
    pub fn ite(&mut self, c: Bit, t: Bit, e: Bit) -> Result<Bit, GateError>
        ensures ok { IfOk result (λ bit. (self.new, bit) ≡ ite_of self.old c t e) }
        ensures limit { (result ≡ Err GateError.Limit) ↔ IsPast self.old (ite_of self.old c t e) }
        ensures err { OnErr result (self.new ≡ self.old) }
    {
        match c {
            Bit::Constant(true) => Ok(t),
            Bit::Constant(false) => Ok(e),
            Bit::Signed(c) => {
                if t == e {
                    return Ok(t);
                }
                self.choice(&c, &t, &e)
            }
        }
    }

    /// A new variable.
    pub fn input(&mut self) -> Result<Bit, GateError>
        ensures ok { IfOk result (λ bit. (self.new, bit) ≡ input_of self.old) }
        ensures limit { (result ≡ Err GateError.Limit) ↔ (self.old.variables ≡ 200000) }
        ensures err { OnErr result (self.new ≡ self.old) }
    {
        if self.variables == LIMIT {
            return Err(GateError::Limit);
        }
        let input = Variable::new(self.variables);
        self.variables += 1;
        Ok(Bit::Signed(Signal::positive(input)))
    }

    /// Adds the clause that one of the bits is true, without False and repeats. Where True or a
    /// contrary pair is among them, nothing is added.
    pub fn or_clause(&mut self, bits: &[Bit]) -> Result<(), Memory>
        ensures ok { OnOk result (self.new ≡ or_clause_of self.old bits.now) }
        ensures err { OnErr result (self.new ≡ self.old) }
    {
        if let Some(clause) = clause_of(self.alloc, bits)? {
            self.clauses.push(clause)?;
        }
        Ok(())
    }

    /// The formula of all clauses built.
    pub fn finish(self) -> Formula
        ensures { result ≡ formula_of self }
    {
        let Builder {
            alloc: _,
            variables,
            clauses,
            gates: _,
        } = self;
        Formula::of(variables, clauses)
    }
}
