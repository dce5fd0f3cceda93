//! The clauses of each kind of gate by the Tseitin transformation, and clauses over bits without duplicates or tautologies.
ghost use Rattle.std.specs.Prelude.{◌≡◌, IfOk, IfNone, IfSome, map, true, false};
ghost use Rattle.cnf_gates.specs.Cnf.{AreLiterals, AreClauses};
ghost use Rattle.clause_model.specs.Clauses.{number_of};
ghost use Rattle.cnf_gates.specs.Gates.{clauses_of, among, has_true, has_pair, always_true, literals, distinct};

use crate::bit::{Bit, Gate, Signal, Variable};
use std::alloc::{AllocError, Global};

/// The clauses that make `output` the value of the gate.
pub fn clauses_of(alloc: Global, gate: &Gate, output: Variable) -> Result<Vec<Vec<i32>>, AllocError>
    ensures clauses { IfOk result (λ v. map (λ c. c.items) v.items ≡ clauses_of gate.now output) }
    ensures literals { IfOk result (λ v. AreClauses (map (λ c. c.items) v.items)) }
{
    let yes = Signal::positive(output);
    let no = yes.contrary();
    match *gate {
        Gate::And(a, b) => all_numbers(
            alloc,
            &[&[no, a], &[no, b], &[yes, a.contrary(), b.contrary()]],
        ),
        Gate::Xor(x, y) => {
            let (x, y) = (Signal::positive(x), Signal::positive(y));
            let (not_x, not_y) = (x.contrary(), y.contrary());
            all_numbers(
                alloc,
                &[
                    &[no, x, y],
                    &[no, not_x, not_y],
                    &[yes, not_x, y],
                    &[yes, x, not_y],
                ],
            )
        }
        Gate::Ite(c, t, e) => {
            let c = Signal::positive(c);
            let not_c = c.contrary();
            all_numbers(
                alloc,
                &[
                    &[no, not_c, t],
                    &[no, c, e],
                    &[yes, not_c, t.contrary()],
                    &[yes, c, e.contrary()],
                ],
            )
        }
    }
}

/// The literals of the bits, in order.
fn literals(alloc: Global, bits: &[Bit]) -> Result<Vec<Signal>, AllocError>
    ensures { IfOk result (λ v. v.items ≡ literals bits.now) }
{
    let mut found = Vec::new(alloc);
    for bit in bits {
        if let Bit::Signed(literal) = bit {
            found.push(*literal)?;
        }
    }
    Ok(found)
}

/// Whether one of the bits is True.
fn has_true(bits: &[Bit]) -> bool
    ensures { result ≡ has_true bits.now }
{
    for bit in bits {
        if let Bit::Constant(true) = bit {
            return true;
        }
    }
    false
}

/// Whether a literal is among others.
fn among(literal: &Signal, literals: &[Signal]) -> bool
    ensures { result ≡ among literal.now literals.now }
{
    for other in literals {
        if *other == *literal {
            return true;
        }
    }
    false
}

/// Whether two of the literals are contrary.
fn has_pair(literals: &[Signal]) -> bool
    ensures { result ≡ has_pair literals.now }
{
    for (i, literal) in literals.iter().enumerate() {
        if among(&literal.contrary(), &literals[i + 1..]) {
            return true;
        }
    }
    false
}

/// Each literal once, in the order of first occurrence.
fn distinct(alloc: Global, literals: &[Signal]) -> Result<Vec<Signal>, AllocError>
    ensures { IfOk result (λ v. v.items ≡ distinct literals.now) }
{
    let mut kept = Vec::new(alloc);
    for literal in literals {
        if !among(literal, &kept) {
            kept.push(*literal)?;
        }
    }
    Ok(kept)
}

/// The DIMACS numbers of the literals.
fn numbers(alloc: Global, literals: &[Signal]) -> Result<Vec<i32>, AllocError>
    ensures numbers { IfOk result (λ v. v.items ≡ map number_of literals.now) }
    ensures literals { IfOk result (λ v. AreLiterals v.items) }
{
    let mut numbers = Vec::with_capacity(alloc, literals.len())?;
    for literal in literals {
        numbers.push(literal.number())?;
    }
    Ok(numbers)
}

/// The DIMACS numbers of the literals of each clause.
fn all_numbers(alloc: Global, clauses: &[&[Signal]]) -> Result<Vec<Vec<i32>>, AllocError>
    ensures numbers { IfOk result (λ v. map (λ c. c.items) v.items ≡ map (λ c. map number_of c.now) clauses.now) }
    ensures literals { IfOk result (λ v. AreClauses (map (λ c. c.items) v.items)) }
{
    let mut all = Vec::with_capacity(alloc, clauses.len())?;
    for clause in clauses {
        all.push(numbers(alloc, clause)?)?;
    }
    Ok(all)
}

/// The clause that one of the bits is true, each literal once; None where it is always true.
pub fn clause_of(alloc: Global, bits: &[Bit]) -> Result<Option<Vec<i32>>, AllocError>
    ensures always { IfOk result (λ o. IfNone o (always_true bits.now ≡ true)) }
    ensures numbers { IfOk result (λ o. IfSome o (λ v. (always_true bits.now ≡ false) × (v.items ≡ map number_of (distinct (literals bits.now))))) }
    ensures literals { IfOk result (λ o. IfSome o (λ v. AreLiterals v.items)) }
{
    if has_true(bits) {
        return Ok(None);
    }
    let found = literals(alloc, bits)?;
    if has_pair(&found) {
        return Ok(None);
    }
    let kept = distinct(alloc, &found)?;
    Ok(Some(numbers(alloc, &kept)?))
}
