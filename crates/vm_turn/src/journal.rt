// What is told of events that ended, and of turns.

use cap_words::Word;
use instr_table::Quota;

/// How an event ended.
#[derive(Clone, Copy, PartialEq, Eq)]
pub enum Outcome {
    /// All its effects took place at once.
    Committed,
    /// It had no effect, for this reason.
    Failed(Word),
    /// It had no effect, since its sponsor held too little of this kind for the next instruction.
    RanOut(Quota),
}

/// One event that ended: the number of its message, and how.
#[derive(Clone, Copy, PartialEq, Eq)]
pub struct Entry {
    pub message: u32,
    pub outcome: Outcome,
}

/// What a turn came to.
#[derive(Clone, Copy, PartialEq, Eq)]
pub enum Turn {
    /// An event began.
    Dispatched,
    /// An event in flight took one instruction, and goes on.
    Stepped,
    /// An event ended, with this entry of the journal.
    Finished(Entry),
    /// Nothing is in flight, and no message can be dispatched.
    Rest,
    /// The root sponsor ran out of this kind, in this turn or before.
    Spent { sponsor: Word, kind: Quota },
}
