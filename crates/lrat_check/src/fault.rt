//! Why a line is refused: the first of its tests that fails.
ghost use Rattle.std.specs.Prelude.{◌≡◌};

use std::alloc::{AllocError, AllocFailed};

/// Why a line is refused. Places count from 1.
#[derive(Clone, Copy, Debug, PartialEq, Eq)]
pub enum LineFault {
    /// The id of an added clause isn't greater than every id before.
    Order,
    /// A hint is negative, as RAT steps have it; these aren't supported.
    Rat,
    /// No live clause has the id at this place among the hints, or among the ids to delete.
    Dead(usize),
    /// The clause that the hint at this place names is neither false nor unit.
    Hint(usize),
    /// No hint's clause became false.
    NoConflict,
    /// The memory didn't suffice.
    Memory,
}

impl From<AllocError> for LineFault {
    ghost use Rattle.lrat_check.specs.declared.fault.LineFault.TheVariants.{Memory};

    ghost from_gives = { λ _ e. e ≡ Memory };

    fn from(_error: AllocError) -> Self {
        LineFault::Memory
    }
}

impl<T: Drop> From<AllocFailed<T>> for LineFault {
    ghost use Rattle.lrat_check.specs.declared.fault.LineFault.TheVariants.{Memory};

    ghost from_gives = { λ _ e. e ≡ Memory };

    fn from(_error: AllocFailed<T>) -> Self {
        LineFault::Memory
    }
}
