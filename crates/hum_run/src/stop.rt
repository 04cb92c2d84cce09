// Why no further turn is taken.

use instr_table::Quota;

/// Why no further turn is taken.
#[derive(Clone, Copy, Debug, PartialEq, Eq)]
pub enum Stop {
    /// Nothing is in flight, and no message can be dispatched.
    Rest,
    /// The bound's number of events is finished, and a message is pending.
    Bound,
    /// The root sponsor ran out of this kind, of which it holds so much.
    Spent { kind: Quota, held: u32 },
    /// An earlier call could not write.
    Broken,
}

/// A write failed: on err, or else on out.
#[derive(Clone, Copy, Debug, PartialEq, Eq)]
pub struct WriteFault {
    pub on_err: bool,
}
