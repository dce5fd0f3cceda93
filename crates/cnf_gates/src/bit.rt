//! What gates take and give: constants and literals, whose types say that their variable is one that a builder may have.
ghost use Rattle.std.specs.Prelude.{◌≡◌, ◌<◌, ℕ};

use clause_model::Literal;
use std::marker::Model;

/// How many variables a builder or a formula may have.
pub const LIMIT: u32 = 200_000;

/// A variable by its place, from 0 on.
#[derive(Clone, Copy, Debug, PartialEq, Eq, PartialOrd, Ord, Hash)]
pub struct Variable {
    place: u32,
}

impl Model for Variable {
    ghost Value = { ℕ };

    ghost view = { λ v. v.place };

    ghost invariant = { λ v. v.place < 200000 };

    ghost inverse = { λ n. record { place = n } };
}

impl Variable {
    /// The variable at a place.
    pub fn new(place: u32) -> Variable
        requires { place < 200000 }
        ensures { result ≡ place }
    {
        Variable { place }
    }

    /// Its place, from 0 on.
    pub fn place(self) -> u32
        ensures place { result ≡ self }
        ensures within { result < 200000 }
    {
        self.place
    }
}

/// A literal of one of the first 200,000 variables, those that a builder may have.
///
/// Contracts see its code: 2v for the variable v, counted from 0, and 2v + 1 for its negation.
/// Signals are ordered by variable, positive first.
#[derive(Clone, Copy, Debug, PartialEq, Eq, PartialOrd, Ord, Hash)]
pub struct Signal {
    literal: Literal,
}

impl Model for Signal {
    ghost Value = { ℕ };

    ghost view = { λ s. s.literal };

    ghost invariant = { λ s. s.literal < 400000 };

    ghost inverse = { λ n. record { literal = n } };
}

/// A constant or a signal: what a builder's operations take and give.
#[derive(Clone, Copy, Debug, PartialEq, Eq, Hash)]
pub enum Bit {
    Constant(bool),
    Signed(Signal),
}

/// What a gate computes: the key under which it is kept. The lesser signal or variable stands
/// first; a choice is by a positive condition.
#[derive(Clone, Copy, Debug, PartialEq, Eq, Hash)]
pub enum Gate {
    And(Signal, Signal),
    Xor(Variable, Variable),
    Ite(Variable, Signal, Signal),
}

impl Signal {
    ghost use Rattle.std.specs.Prelude.{◌*◌};
    ghost use Rattle.clause_model.specs.Clauses.{negated, variable_of, is_negative, number_of};
    ghost use Rattle.cnf_gates.specs.Cnf.{IsLiteral};

    /// The variable, not negated.
    pub fn positive(variable: Variable) -> Signal
        ensures { result ≡ 2 * variable }
    {
        Signal {
            literal: Literal::new(variable.place(), false),
        }
    }

    /// Its variable.
    pub fn variable(self) -> Variable
        ensures { result ≡ variable_of self }
    {
        Variable::new(self.literal.variable())
    }

    /// Whether it is the negation of its variable.
    pub fn is_negative(self) -> bool
        ensures { result ≡ is_negative self }
    {
        self.literal.is_negative()
    }

    /// The contrary signal.
    #[must_use]
    pub fn contrary(self) -> Signal
        ensures { result ≡ negated self }
    {
        Signal {
            literal: self.literal.negated(),
        }
    }

    /// The DIMACS number that names it in a clause.
    pub fn number(self) -> i32
        ensures number { result ≡ number_of self }
        ensures literal { IsLiteral result }
    {
        self.literal.number()
    }
}

impl Bit {
    ghost use Rattle.cnf_gates.specs.Gates.{not_of, negated_if};

    /// The contrary bit.
    pub fn not(self) -> Bit
        ensures { result ≡ not_of self }
    {
        match self {
            Bit::Constant(value) => Bit::Constant(!value),
            Bit::Signed(signal) => Bit::Signed(signal.contrary()),
        }
    }

    /// The bit, or its contrary where `negated`.
    pub fn negated_if(self, negated: bool) -> Bit
        ensures { result ≡ negated_if negated self }
    {
        if negated { self.not() } else { self }
    }
}
