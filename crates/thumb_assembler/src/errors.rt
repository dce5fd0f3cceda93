//! Why a listing has no image. Branches and loads reach once the layout exists, so an address is missing, or a set address lies inside the image.
use std::alloc::AllocError;
use thiserror::Error;

/// Why a listing has no image.
#[derive(Clone, Copy, Debug, PartialEq, Eq, Error)]
pub enum ImageError {
    /// A line mentions in `b`, `bl` or `.word` a name that no label has and no line sets. It is the first line with an error, counted from 1.
    #[error("line {0}: a name has no address")]
    NoAddress(u32),
    /// A line sets an address that lies in the image, from the base up to but not including the end. It is the first line with an error, counted from 1.
    #[error("line {0}: the address lies in the image")]
    Inside(u32),
    /// Memory ran out.
    #[error("out of memory")]
    Memory,
}

/// Why a line has no bytes.
#[derive(Clone, Copy, Debug, PartialEq, Eq)]
pub(crate) enum Flaw {
    /// It mentions a name that has no address.
    NoAddress,
    /// It sets an address that lies in the image.
    Inside,
    /// Memory ran out.
    Memory,
}

impl From<AllocError> for Flaw {
    ghost use Rattle.std.specs.Prelude.{◌≡◌};
    ghost use Rattle.thumb_assembler.specs.declared.errors.Flaw.TheVariants.{Memory};

    ghost from_gives = { λ _ e. e ≡ Memory };

    fn from(_: AllocError) -> Flaw {
        Flaw::Memory
    }
}

impl Flaw {
    ghost use Rattle.thumb_assembler.specs.Pushes.{told_at};
    ghost use Rattle.std.specs.Prelude.{◌≡◌};

    /// The error that reports this flaw of the line with this number.
    pub(crate) fn at(self, line: u32) -> ImageError
        ensures { result ≡ told_at self line }
    {
        match self {
            Flaw::NoAddress => ImageError::NoAddress(line),
            Flaw::Inside => ImageError::Inside(line),
            Flaw::Memory => ImageError::Memory,
        }
    }
}
