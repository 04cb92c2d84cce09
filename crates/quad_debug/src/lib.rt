//! The debugger: a machine that obeys commands, and tells what they came to.
//!
//! `read_script` reads commands, one a line. `Debug::start` takes a machine, `Debug::obey` does a command and writes its lines, and
//! `Debug::end` hands the machine back.
//!
//! | command | does and writes |
//! |---|---|
//! | `step N` | N turns, fewer where there are no more; then `* turn K`, K being the turns completed since boot |
//! | `event N` | turns until N more events ended |
//! | `break M` | turns until message M is in flight or its event ended; then `* in flight M` where it is in flight |
//! | `show rom N`, `show ram N` | `* rom N t x y z` or `* ram N t x y z`, each word in 8 hexadecimal digits, or `none` in their place |
//! | `queue` | `* ready M` for each ready message in order |
//! | `sheet` | for each sponsor in order of making three lines: `* sponsor K memory received R passed P spent S held H`, and so on |
//! | `back N`, N from 1 to 64 | the last N entries since the start, oldest first, of the 64 that are kept |
//!
//! Numbers have 1 to 9 digits. An entry is written as `* event M committed`, `* event M failed: TEXT` or `* event M spent KIND`, by `event`
//! and `break` directly behind what the turn that adds it writes. Where the root ran out, before or in their turns, both end with `* spent`
//! and no other line. Where the machine is at rest they end with `* rest` if it was so before, or if what they wait for did not come.
#![tactic(auto)]

mod command;
mod debug;
mod laws;
mod line;
mod lines;
mod rest;
mod script;
mod sheet;
mod texts;
mod wait;

pub use command::{Command, Place};
pub use debug::Debug;
pub use laws::{commands_end, rests_have_no_turn};
pub use script::{ScriptError, read_script};
pub use std::alloc::AllocError as NoMemory;
pub use vm_devices::WriteFault;
