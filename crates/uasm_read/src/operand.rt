//! The words of an item.

use cap_words::Name;

/// A word of an item.
#[derive(Drop)]
pub enum Operand {
    /// A number from -1073741824 to 1073741823.
    Fix(i32),
    /// A constant, by its number from 0 to 15.
    Const(u32),
    /// The item of that label, here or in the module that exports it.
    Label(Name),
    /// The item after this one. Stands only as the next of an instruction.
    Following,
}
