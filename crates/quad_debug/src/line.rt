// What a line of a script says.

use crate::command::Command;

/// What a line of a script says.
#[derive(Clone, Copy, Debug, PartialEq, Eq)]
pub enum Line {
    /// Nothing: it has no part.
    Blank,
    /// A command.
    Says(Command),
    /// It has no form.
    Bad,
}
