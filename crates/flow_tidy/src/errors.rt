//! Tidying refuses nothing but a listing that can't be laid out as it was given.
use label_layout::{LayoutError, LayoutFault};
use std::alloc::{AllocError, AllocFailed};
use thiserror::Error;

/// Why a listing is not tidied.
#[derive(Clone, Copy, Debug, PartialEq, Eq, Error)]
pub enum TidyError {
    /// The first line of the given listing that cannot be laid out, by its number from 1, and why: what it mentions is out of its reach (`Range`), or not at a
    /// multiple of 4 (`Align`).
    #[error("line {number}: {kind:?}")]
    Line { number: u64, kind: LayoutFault },
    /// Want of memory, of the process's or of the Code region of the system address map (0x00000000 to 0x1FFFFFFF).
    #[error("out of memory")]
    Memory,
}

impl From<AllocError> for TidyError {
    ghost use Rattle.std.specs.Prelude.{◌≡◌};
    ghost use Rattle.flow_tidy.specs.declared.errors.TidyError.TheVariants.{Memory as OfMemory};

    ghost from_gives = { λ _ e. e ≡ OfMemory };

    fn from(_: AllocError) -> TidyError {
        TidyError::Memory
    }
}

impl<T: Drop> From<AllocFailed<T>> for TidyError {
    ghost use Rattle.std.specs.Prelude.{◌≡◌};
    ghost use Rattle.flow_tidy.specs.declared.errors.TidyError.TheVariants.{Memory as OfMemory};

    ghost from_gives = { λ _ e. e ≡ OfMemory };

    fn from(_: AllocFailed<T>) -> TidyError {
        TidyError::Memory
    }
}

impl From<LayoutError> for TidyError {
    ghost use Rattle.std.specs.Prelude.{◌≡◌};
    ghost use Rattle.flow_tidy.specs.Tidying.{of_layout};

    ghost from_gives = { λ e f. f ≡ of_layout e };

    fn from(error: LayoutError) -> TidyError {
        match error {
            LayoutError::Line { number, kind } => TidyError::Line { number, kind },
            LayoutError::Memory => TidyError::Memory,
        }
    }
}
