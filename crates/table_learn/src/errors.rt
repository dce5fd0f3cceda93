//! Why no table is learnt. `Full` carries the table whose text is too long, so that contracts can speak of it.
ghost use Rattle.std.specs.Prelude.{◌≡◌};

use rule_table::Table;
use std::alloc::AllocError;
use std::fmt;
use thiserror::Error;

/// Why no table is learnt.
#[derive(Drop, Error)]
pub enum LearnError {
    /// A window of the most instructions and registers may have to be distinguished from this many sequences, which are more than 5,000,000.
    #[error("{0} sequences are too many")]
    Wide(u64),
    /// The text of this table, of the windows so far, has this many bytes, which are more than `ascii_scan::TEXT_LIMIT`.
    #[error("the table's text has {bytes} bytes")]
    Full { table: Table, bytes: u64 },
    /// Memory ran out.
    #[error("out of memory")]
    Memory,
}

impl fmt::Debug for LearnError {
    fn fmt<W: fmt::Write>(&self, f: &mut fmt::Formatter<W>) -> fmt::Result {
        match self {
            LearnError::Wide(count) => write!(f, "Wide({count})"),
            LearnError::Full { bytes, .. } => write!(f, "Full({bytes})"),
            LearnError::Memory => write!(f, "Memory"),
        }
    }
}

impl From<AllocError> for LearnError {
    ghost use Rattle.table_learn.specs.declared.errors.LearnError.TheVariants.{Memory as OfMemory};

    ghost from_gives = { λ _ e. e ≡ OfMemory };

    fn from(_: AllocError) -> LearnError {
        LearnError::Memory
    }
}
