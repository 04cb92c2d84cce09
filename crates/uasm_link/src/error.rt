//! Why modules are not linked.

use cap_words::Name;
use std::alloc::{AllocError, AllocFailed};

/// Why modules are not linked, the first of these.
#[derive(Drop)]
pub enum LinkError {
    /// Comes at any moment.
    NoMemory,
    /// The first export, modules and their exports in order, whose name an export before it has.
    Twice(Name),
    /// The first import that no module exports.
    NoSuch(Name),
    /// No module exports `boot`.
    NoBoot,
    /// There are more than 1,048,560 items.
    TooLarge,
}

impl From<AllocError> for LinkError {
    ghost use Rattle.std.specs.Prelude.{◌≡◌};
    ghost use Rattle.uasm_link.specs.declared.error.LinkError.TheVariants.{NoMemory};

    ghost from_gives = { λ _ e. e ≡ NoMemory };

    fn from(_: AllocError) -> LinkError {
        LinkError::NoMemory
    }
}

impl<T: Drop> From<AllocFailed<T>> for LinkError {
    ghost use Rattle.std.specs.Prelude.{◌≡◌};
    ghost use Rattle.uasm_link.specs.declared.error.LinkError.TheVariants.{NoMemory};

    ghost from_gives = { λ _ e. e ≡ NoMemory };

    fn from(_: AllocFailed<T>) -> LinkError {
        LinkError::NoMemory
    }
}
