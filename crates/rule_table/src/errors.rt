//! Why a text can't be read as a table: the first bad line, or lack of memory.
use std::alloc::AllocError;
use thiserror::Error;

/// Why a text can't be read as a table.
#[derive(Clone, Copy, Debug, PartialEq, Eq, Error)]
pub enum TableError {
    /// The least n, from 1, such that no table's text begins with the first n lines. If the text ends too early, or its last line lacks the
    /// newline, n is the number of the line that is missing or cut.
    #[error("line {0} begins no table")]
    Line(u64),
    /// Memory ran out.
    #[error("out of memory")]
    Memory,
}

impl From<AllocError> for TableError {
    ghost use Rattle.std.specs.Prelude.{◌≡◌};
    ghost use Rattle.rule_table.specs.declared.errors.TableError.TheVariants.{Memory as OfMemory};

    ghost from_gives = { λ _ e. e ≡ OfMemory };

    fn from(_: AllocError) -> TableError {
        TableError::Memory
    }
}
