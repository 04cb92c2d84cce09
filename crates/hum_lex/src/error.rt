//! Why a text has no tokens.

use std::alloc::{AllocError, AllocFailed};

/// What is wrong at a place, in the order in which causes at one place are told.
#[derive(Clone, Copy, Debug, PartialEq, Eq)]
pub enum LexCause {
    /// Outside texts and comments, a byte that is no blank, delimiter or run byte, or a `#` before a delimiter.
    BadByte,
    /// A text without end, at its opening quote, or a byte in it that begins none of its forms.
    BadText,
    /// A run of more than 128 bytes, at its first byte.
    RunTooLong,
    /// A number that is not from -1073741824 to 1073741823.
    NumberRange,
    /// A keyword of another profile.
    NotInProfile,
    /// The token with which the weight passes 16,000.
    TooLarge,
}

/// The first place at which a text has no tokens, as a byte's number from 0 on, and the cause.
#[derive(Clone, Copy, Debug, PartialEq, Eq)]
pub struct LexRefused {
    pub at: u32,
    pub cause: LexCause,
}

/// Why there are no tokens.
#[derive(Clone, Copy, Debug, PartialEq, Eq)]
pub enum LexError {
    NoMemory,
    Refused(LexRefused),
}

impl From<AllocError> for LexError {
    ghost use Rattle.std.specs.Prelude.{◌≡◌};
    ghost use Rattle.hum_lex.specs.declared.error.LexError.TheVariants.{NoMemory};

    ghost from_gives = { λ _ e. e ≡ NoMemory };

    fn from(_: AllocError) -> LexError {
        LexError::NoMemory
    }
}

impl<T: Drop> From<AllocFailed<T>> for LexError {
    ghost use Rattle.std.specs.Prelude.{◌≡◌};
    ghost use Rattle.hum_lex.specs.declared.error.LexError.TheVariants.{NoMemory};

    ghost from_gives = { λ _ e. e ≡ NoMemory };

    fn from(_: AllocFailed<T>) -> LexError {
        LexError::NoMemory
    }
}
