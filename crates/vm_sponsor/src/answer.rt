// Why a call changed nothing.

use instr_table::Quota;

/// The giver holds less than it is to give.
#[derive(Clone, Copy, Debug, PartialEq, Eq)]
pub struct Short {
    /// What it holds.
    pub held: u32,
}

/// The sponsor holds less than is due.
#[derive(Clone, Copy, Debug, PartialEq, Eq)]
pub struct RanOut {
    /// The first kind of which it does: cycles, memory, events.
    pub kind: Quota,
}

/// The sponsor runs already.
#[derive(Clone, Copy, Debug, PartialEq, Eq)]
pub struct Running;
