//! A proof's lines as data. Ids, hints and literals are distinct types, so that none can be used in another's place.
ghost use Rattle.std.specs.Prelude.{◌≡◌, ℕ, ℤ, pos, ◌<◌, unsigned_abs, MatchOption};
ghost use Rattle.lrat_check.specs.Numbers.{is_negative, IsId, IsHint, AllWithin};
ghost use Rattle.clause_model.specs.Clauses.{HasDistinctVariables};

use clause_model::Literal;
use std::marker::Model;

/// How many variables the clauses of a proof may have.
pub const VARIABLES: u32 = 200_000;

/// The number of a clause, from 1 to 4294967295.
#[derive(Clone, Copy, Debug, PartialEq, Eq, PartialOrd, Ord)]
pub struct Id {
    number: u32,
}

impl Model for Id {
    ghost Value = { ℕ };

    ghost view = { λ i. i.number };

    ghost invariant = { λ i. IsId i.number };

    ghost inverse = { λ n. record { number = n } };
}

impl Id {
    /// The id with this number, which isn't 0.
    pub fn new(number: u32) -> Self
        requires { 0 < number }
        ensures { result ≡ number }
    {
        Id { number }
    }

    /// The id with this number, unless it is below 1 or has more than 32 bits.
    pub fn from_number(number: i64) -> Option<Self>
        ensures { MatchOption result ((n : ℕ) → IsId n → pos n ≡ number → ⊥) (λ id. IsId id × (pos id ≡ number)) }
    {
        match u32::try_from(number) {
            Ok(number) if number != 0 => Some(Id { number }),
            _ => None,
        }
    }

    /// The id's number.
    pub fn number(self) -> u32
        ensures value { result ≡ self }
        ensures positive { 0 < result }
    {
        self.number
    }
}

/// The id of the clause to be used next, or its negative, which the checker refuses.
#[derive(Clone, Copy, Debug, PartialEq, Eq)]
pub struct Hint {
    number: i64,
}

impl Model for Hint {
    ghost Value = { ℤ };

    ghost view = { λ h. h.number };

    ghost invariant = { λ h. IsHint h.number };

    ghost inverse = { λ z. record { number = z } };
}

impl Hint {
    /// The hint that names a clause.
    pub fn new(id: Id) -> Self
        ensures { result ≡ pos id }
    {
        Hint {
            number: i64::from(id.number()),
        }
    }

    /// The hint with this number, unless it is 0 or its absolute value has more than 32 bits.
    pub fn from_number(number: i64) -> Option<Self>
        ensures { MatchOption result ((z : ℤ) → IsHint z → z ≡ number → ⊥) (λ h. IsHint h × (h ≡ number)) }
    {
        if number == 0 || number.unsigned_abs() > u64::from(u32::MAX) {
            None
        } else {
            Some(Hint { number })
        }
    }

    /// The number, negative where it has a minus.
    pub fn number(self) -> i64
        ensures { result ≡ self }
    {
        self.number
    }

    /// The number without its sign.
    pub fn id(self) -> u64
        ensures { result ≡ unsigned_abs self }
    {
        self.number.unsigned_abs()
    }

    /// Whether it has a minus.
    pub fn is_negative(self) -> bool
        ensures { result ≡ is_negative self }
    {
        self.number < 0
    }
}

/// A line that adds a clause, with the hints that show it.
#[derive(Drop)]
pub struct Addition {
    pub id: Id,
    pub literals: Vec<Literal>,
    pub hints: Vec<Hint>,
    ghost within: { AllWithin literals.items },
    ghost distinct: { HasDistinctVariables literals.items },
}

/// A line that deletes clauses. Its own id is read and written, but has no meaning.
#[derive(Drop)]
pub struct Deletion {
    pub id: Id,
    pub ids: Vec<Id>,
}

/// A line of a proof. An added clause has no variable twice.
#[derive(Drop)]
pub enum Line {
    Addition(Addition),
    Deletion(Deletion),
}
