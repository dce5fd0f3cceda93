//! Why a gate isn't built: memory, or more variables than a formula may have.
pub use std::alloc::AllocError as Memory;
use std::alloc::{AllocError, AllocFailed};
use thiserror::Error;

/// Why no bit was made. The builder is then as it was before.
#[derive(Clone, Copy, Debug, PartialEq, Eq, Error)]
pub enum GateError {
    /// A new variable is needed, and there are as many as there may be.
    #[error("no variable is left")]
    Limit,
    /// Want of memory.
    #[error("out of memory")]
    Memory,
}

impl From<AllocError> for GateError {
    ghost use Rattle.std.specs.Prelude.{◌≡◌};
    ghost use Rattle.cnf_gates.specs.declared.errors.GateError.TheVariants.{Memory};

    ghost from_gives = { λ _ e. e ≡ Memory };

    fn from(_: AllocError) -> GateError {
        GateError::Memory
    }
}

impl<T: Drop> From<AllocFailed<T>> for GateError {
    ghost use Rattle.std.specs.Prelude.{◌≡◌};
    ghost use Rattle.cnf_gates.specs.declared.errors.GateError.TheVariants.{Memory};

    ghost from_gives = { λ _ e. e ≡ Memory };

    fn from(_: AllocFailed<T>) -> GateError {
        GateError::Memory
    }
}
