//! Why a text is no module.

use std::alloc::{AllocError, AllocFailed};

/// What is wrong with a line.
#[derive(Clone, Copy, Debug, PartialEq, Eq)]
pub enum UasmCause {
    /// The text has more than 1,048,576 bytes. Told at line 1.
    TooLong,
    /// The line has a byte that is not ASCII; its first part is neither a name nor `NAME:`, `.import` or `.export`; not one name alone stands
    /// behind its directive; something stands behind its label; neither a line with the form of an item nor one without a form comes after
    /// its label; or it is a `ref` line, and the last line before it that says something is no instruction line.
    BadLine,
    /// The first part is a name, but of no operation.
    NoOperation,
    /// What stands behind an operation, `ref`, `pair_t` or `cell` is missing, too much, not in its form or out of range.
    BadOperand,
    /// The name of this label or import stands before as another one's.
    Twice,
    /// The line names what is neither label nor import, or exports what is no label.
    Unknown,
    /// The line is an instruction other than `end` and `jump` and has no `ref`, and no item follows it or one whose first word is not
    /// `#instr_t`.
    FallsOff,
}

/// The line that is refused, counted from 1, and the cause.
#[derive(Clone, Copy, Debug, PartialEq, Eq)]
pub struct UasmRefused {
    pub line: u32,
    pub cause: UasmCause,
}

/// Why there is no module.
#[derive(Clone, Copy, Debug, PartialEq, Eq)]
pub enum ReadModuleError {
    NoMemory,
    Refused(UasmRefused),
}

impl From<AllocError> for ReadModuleError {
    ghost use Rattle.std.specs.Prelude.{◌≡◌};
    ghost use Rattle.uasm_read.specs.declared.error.ReadModuleError.TheVariants.{NoMemory};

    ghost from_gives = { λ _ e. e ≡ NoMemory };

    fn from(_: AllocError) -> ReadModuleError {
        ReadModuleError::NoMemory
    }
}

impl<T: Drop> From<AllocFailed<T>> for ReadModuleError {
    ghost use Rattle.std.specs.Prelude.{◌≡◌};
    ghost use Rattle.uasm_read.specs.declared.error.ReadModuleError.TheVariants.{NoMemory};

    ghost from_gives = { λ _ e. e ≡ NoMemory };

    fn from(_: AllocFailed<T>) -> ReadModuleError {
        ReadModuleError::NoMemory
    }
}
