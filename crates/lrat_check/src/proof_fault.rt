//! Why a proof or a log is refused, with the number of the line.
ghost use Rattle.std.specs.Prelude.{◌≡◌};

use std::alloc::AllocError;
use thiserror::Error;

/// Why a proof is refused.
#[derive(Clone, Copy, Debug, Drop, PartialEq, Eq, Error)]
pub enum ProofFault {
    /// The first line that isn't accepted, by its number from 1.
    #[error("line {0} of the proof is not accepted")]
    Line(u64),
    /// All lines are accepted, and no clause is empty.
    #[error("the proof does not come to an empty clause")]
    Unfinished,
    /// The memory didn't suffice.
    #[error("out of memory")]
    Memory,
}

impl From<AllocError> for ProofFault {
    ghost use Rattle.lrat_check.specs.declared.proof_fault.ProofFault.TheVariants.{Memory};

    ghost from_gives = { λ _ e. e ≡ Memory };

    fn from(_error: AllocError) -> Self {
        ProofFault::Memory
    }
}
