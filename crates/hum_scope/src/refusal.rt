// Why a tree is refused.

use hum_meaning::ScopeCause;
use std::alloc::AllocError;

/// A name that is refused.
#[derive(Clone, Copy, Debug, PartialEq, Eq)]
pub struct ScopeRefused {
    /// How many names are spelled before it.
    pub at: u32,
    pub cause: ScopeCause,
}

/// Why a tree is not accepted.
#[derive(Clone, Copy, Debug, PartialEq, Eq)]
pub enum ScopeError {
    NoMemory,
    Refused(ScopeRefused),
}

impl From<AllocError> for ScopeError {
    ghost use Rattle.std.specs.Prelude.{◌≡◌};
    ghost use Rattle.hum_scope.specs.declared.refusal.ScopeError.TheVariants.{NoMemory};

    ghost from_gives = { λ _ e. e ≡ NoMemory };

    fn from(_: AllocError) -> ScopeError {
        ScopeError::NoMemory
    }
}
