//! Rewriting refuses nothing but a listing that can't be laid out as it was given.
use label_layout::{LayoutError, LayoutFault};
use std::alloc::{AllocError, AllocFailed};
use thiserror::Error;

/// Why a listing is not rewritten.
#[derive(Clone, Copy, Debug, PartialEq, Eq, Error)]
pub enum RewriteError {
    /// The first line of the given listing that cannot be laid out, by its number from 1, and why: what it mentions is out of its reach (`Range`), or not at a
    /// multiple of 4 (`Align`).
    #[error("line {number}: {kind:?}")]
    Line { number: u64, kind: LayoutFault },
    /// Want of memory, of the process's or of the Code region of the system address map (0x00000000 to 0x1FFFFFFF).
    #[error("out of memory")]
    Memory,
}

impl From<AllocError> for RewriteError {
    ghost use Rattle.std.specs.Prelude.{◌≡◌};
    ghost use Rattle.window_rewrite.specs.declared.errors.RewriteError.TheVariants.{Memory as OfMemory};

    ghost from_gives = { λ _ e. e ≡ OfMemory };

    fn from(_: AllocError) -> RewriteError {
        RewriteError::Memory
    }
}

impl<T: Drop> From<AllocFailed<T>> for RewriteError {
    ghost use Rattle.std.specs.Prelude.{◌≡◌};
    ghost use Rattle.window_rewrite.specs.declared.errors.RewriteError.TheVariants.{Memory as OfMemory};

    ghost from_gives = { λ _ e. e ≡ OfMemory };

    fn from(_: AllocFailed<T>) -> RewriteError {
        RewriteError::Memory
    }
}

impl From<LayoutError> for RewriteError {
    ghost use Rattle.std.specs.Prelude.{◌≡◌};
    ghost use Rattle.window_rewrite.specs.Errors.{of_layout};

    ghost from_gives = { λ e f. f ≡ of_layout e };

    fn from(error: LayoutError) -> RewriteError {
        match error {
            LayoutError::Line { number, kind } => RewriteError::Line { number, kind },
            LayoutError::Memory => RewriteError::Memory,
        }
    }
}
