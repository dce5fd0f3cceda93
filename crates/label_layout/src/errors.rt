//! Why a line can't be laid out, with the distance or address that is reported.
use std::alloc::AllocError;
use thiserror::Error;

/// Why a line cannot be laid out.
#[derive(Clone, Copy, Debug, PartialEq, Eq)]
pub enum LayoutFault {
    /// What the instruction mentions is too far away, or on the wrong side of it: the distance in bytes. It is counted from the instruction's address and 4, for
    /// `ldr` and `adr` rounded down to a multiple of 4 (PC and Align(PC, 4) of the manual).
    Range(i64),
    /// What `ldr` or `adr` mentions is not at a multiple of 4: its address.
    Align(u64),
}

/// Why a listing cannot be laid out.
#[derive(Clone, Copy, Debug, PartialEq, Eq, Error)]
pub enum LayoutError {
    /// The first line that is refused, by its number from 1, and why. Where both faults are a line's, `Align` is reported.
    #[error("line {number}: {kind:?}")]
    Line { number: u64, kind: LayoutFault },
    /// Want of memory, of the process's or of the Code region of the system address map (0x00000000 to 0x1FFFFFFF).
    #[error("out of memory")]
    Memory,
}

impl From<AllocError> for LayoutError {
    ghost use Rattle.std.specs.Prelude.{◌≡◌};
    ghost use Rattle.label_layout.specs.declared.errors.LayoutError.TheVariants.{Memory as OfMemory};

    ghost from_gives = { λ _ e. e ≡ OfMemory };

    fn from(_: AllocError) -> LayoutError {
        LayoutError::Memory
    }
}
