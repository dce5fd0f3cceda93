//! Why a table is refused. The causes stand in the order in which the audit looks for them, and the first is reported.
ghost use Rattle.std.specs.Prelude.{◌≡◌};

use std::alloc::{AllocError, AllocFailed};
use thiserror::Error;

/// Why an entry is refused.
#[derive(Clone, Copy, Debug, PartialEq, Eq, Error)]
pub enum EntryFault {
    /// The sides or the mask are not what the table's header allows.
    #[error("sides or mask are not of the table's form")]
    Sides,
    /// The first line of the proof that isn't accepted, by its number from 1.
    #[error("line {0} of the proof is not accepted")]
    Proof(u64),
    /// All lines are accepted, and no clause is empty.
    #[error("the proof does not come to an empty clause")]
    Unfinished,
    /// The first sequence below the right side, by weight and then by number, that isn't named open and that no state tells from the left side: its number.
    #[error("no state tells sequence {0}")]
    Untold(u64),
    /// The first number named open that isn't that of a sequence below the right side, or whose sequence a state tells, or whose log doesn't spend the budget.
    #[error("{0} is not rightly named open")]
    Open(u64),
}

/// Why a family is refused.
#[derive(Clone, Copy, Debug, PartialEq, Eq, Error)]
pub enum FamilyKind {
    /// There is no such entry, the number isn't in the pool or not in the range, the range isn't within 0 to 255, or the left side doesn't have the number
    /// in 8 bits.
    #[error("the number can't be raised")]
    Symbol,
    /// The first line of the proof that isn't accepted, by its number from 1.
    #[error("line {0} of the proof is not accepted")]
    Proof(u64),
    /// All lines are accepted, and no clause is empty.
    #[error("the proof does not come to an empty clause")]
    Unfinished,
}

/// Why a table is refused.
#[derive(Clone, Copy, Debug, PartialEq, Eq, Error)]
pub enum AuditError {
    /// The place, from 1, of the first of the seed's states that is missing or differs.
    #[error("state {0} is not the seed's")]
    States(u64),
    /// How many sequences there may be below a right side, where these are more than 5,000,000.
    #[error("{0} sequences are too many")]
    Wide(u64),
    /// An entry, by its number from 1.
    #[error("entry {number}: {kind}")]
    Entry { number: u64, kind: EntryFault },
    /// A family, by its number from 1.
    #[error("family {number}: {kind}")]
    Family { number: u64, kind: FamilyKind },
    /// The memory didn't suffice.
    #[error("out of memory")]
    Memory,
}

impl From<AllocError> for AuditError {
    ghost use Rattle.table_audit.specs.declared.errors.AuditError.TheVariants.{Memory};

    ghost from_gives = { λ _ e. e ≡ Memory };

    fn from(_: AllocError) -> Self {
        AuditError::Memory
    }
}

impl<T: Drop> From<AllocFailed<T>> for AuditError {
    ghost use Rattle.table_audit.specs.declared.errors.AuditError.TheVariants.{Memory};

    ghost from_gives = { λ _ e. e ≡ Memory };

    fn from(_: AllocFailed<T>) -> Self {
        AuditError::Memory
    }
}
