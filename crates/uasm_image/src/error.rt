//! Why bytes are no image.

use std::alloc::{AllocError, AllocFailed};

/// What is wrong at a place.
#[derive(Clone, Copy, Debug, PartialEq, Eq)]
pub enum ImageCause {
    /// The bytes do not begin with the magic and are no front of it, at 0.
    Magic,
    /// The count of cells is not from 1 to 1,048,560, at 4.
    Count,
    /// A word breaks its rule, at its first byte.
    Word,
    /// The bytes end before the image does, at their length.
    Truncated,
    /// Bytes follow, at the image's end.
    Extra,
}

/// The first place at which bytes are no image's, as a byte's number from 0 on, and the cause.
#[derive(Clone, Copy, Debug, PartialEq, Eq)]
pub struct ImageRefused {
    pub at: u32,
    pub cause: ImageCause,
}

/// Why there is no image.
#[derive(Clone, Copy, Debug, PartialEq, Eq)]
pub enum DecodeError {
    NoMemory,
    Refused(ImageRefused),
}

impl From<ImageRefused> for DecodeError {
    ghost use Rattle.std.specs.Prelude.{◌≡◌};
    ghost use Rattle.uasm_image.specs.declared.error.DecodeError.TheVariants.{Refused};

    ghost from_gives = { λ why e. e ≡ Refused why };

    fn from(why: ImageRefused) -> DecodeError {
        DecodeError::Refused(why)
    }
}

impl From<AllocError> for DecodeError {
    ghost use Rattle.std.specs.Prelude.{◌≡◌};
    ghost use Rattle.uasm_image.specs.declared.error.DecodeError.TheVariants.{NoMemory};

    ghost from_gives = { λ _ e. e ≡ NoMemory };

    fn from(_: AllocError) -> DecodeError {
        DecodeError::NoMemory
    }
}

impl<T: Drop> From<AllocFailed<T>> for DecodeError {
    ghost use Rattle.std.specs.Prelude.{◌≡◌};
    ghost use Rattle.uasm_image.specs.declared.error.DecodeError.TheVariants.{NoMemory};

    ghost from_gives = { λ _ e. e ≡ NoMemory };

    fn from(_: AllocFailed<T>) -> DecodeError {
        DecodeError::NoMemory
    }
}
