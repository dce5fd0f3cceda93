//! Why a text is refused as a listing: its first bad line, and the kind of the fault. The kinds' numbers are printed, so they mustn't change.
pub use std::alloc::AllocError as Memory;
use std::alloc::{AllocError, AllocFailed};
use thiserror::Error;

/// Why a line is refused. `as u8` gives the number that is printed.
#[derive(Clone, Copy, Debug, PartialEq, Eq)]
pub enum ListingFault {
    /// The line is outside the grammar.
    Shape = 1,
    /// The line defines a name that was defined before.
    Twice = 2,
    /// The line mentions a name that isn't what its statement needs, such as a data label where a branch needs a code label.
    Target = 3,
    /// The line comes after the 262,144th, or has more than 1,024 bytes without its newline.
    Limit = 6,
}

/// Why a text is no listing.
#[derive(Clone, Copy, Debug, PartialEq, Eq, Error)]
pub enum ListingError {
    /// The first line that is refused, by its number from 1, and why.
    #[error("line {number}: {kind:?}")]
    Line { number: u64, kind: ListingFault },
    /// Want of memory.
    #[error("out of memory")]
    Memory,
}

impl From<AllocError> for ListingError {
    ghost use Rattle.std.specs.Prelude.{◌≡◌};
    ghost use Rattle.listing_parser.specs.declared.errors.ListingError.TheVariants.{Memory as OfMemory};

    ghost from_gives = { λ _ e. e ≡ OfMemory };

    fn from(_: AllocError) -> ListingError {
        ListingError::Memory
    }
}

impl<T: Drop> From<AllocFailed<T>> for ListingError {
    ghost use Rattle.std.specs.Prelude.{◌≡◌};
    ghost use Rattle.listing_parser.specs.declared.errors.ListingError.TheVariants.{Memory as OfMemory};

    ghost from_gives = { λ _ e. e ≡ OfMemory };

    fn from(_: AllocFailed<T>) -> ListingError {
        ListingError::Memory
    }
}
