// The answers of the program.
ghost use Rattle.std.specs.Prelude.{◌≡◌};
ghost use Rattle.hum_command.specs.Answers.{status_of};

use crate::refusal::{Refusal, TextRefusal};
use instr_table::Quota;

/// What the program answers. Why each answer comes is defined in specs/Answers, and its line on err in specs/Refusals.
#[derive(Drop)]
pub enum Answer {
    /// The command was done.
    Done,
    /// The words have no form.
    Usage,
    /// A file could not be read.
    Unread,
    /// A text is refused.
    TextRefused(TextRefusal),
    /// Out or err could not be written.
    Fault,
    /// The root sponsor ran out of this kind.
    Spent(Quota),
    /// The bound's number of events is finished, and a message is pending.
    Bound,
    /// There was no memory.
    NoMemory,
    /// The machine is at rest, and an event failed.
    EventFailed,
    /// The contents of files are refused.
    Refused(Refusal),
    /// This line of a script is refused.
    ScriptRefused(u32),
}

impl Answer {
    /// The exit status.
    pub fn status(&self) -> u8
        ensures { result ≡ status_of self.now }
    {
        match self {
            Answer::Done => 0,
            Answer::Usage => 1,
            Answer::Unread => 2,
            Answer::TextRefused(_) => 3,
            Answer::Fault => 4,
            Answer::Spent(_) => 5,
            Answer::Bound => 6,
            Answer::NoMemory => 7,
            Answer::EventFailed => 9,
            Answer::Refused(_) => 10,
            Answer::ScriptRefused(_) => 11,
        }
    }
}
