//! The forms of lines.

use crate::error::UasmCause;
use crate::operand::Operand;
use crate::operation::Operation;
use cap_words::Name;

/// What a line says by itself.
#[derive(Drop)]
pub enum Line {
    /// Nothing: it is empty, or has a comment alone.
    Blank,
    /// `.import NAME`.
    Import(Name),
    /// `.export NAME`.
    Export(Name),
    /// `NAME:`.
    Label(Name),
    /// An operation with its operand.
    Instruction(Operation, Operand),
    /// `ref NAME`; None where no name alone stands behind `ref`.
    Next(Option<Name>),
    /// `pair_t` or `cell`: the four words of the item.
    Cell(Operand, Operand, Operand, Operand),
    /// It has no form.
    Bad(UasmCause),
}
