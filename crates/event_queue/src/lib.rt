//! The messages of a machine by number, and the ready ones in order.
//!
//! `Queue` keeps the event of every message, by number, and the numbers of the messages that are ready: `append` gives an event the next
//! number, `append_all` the events that a commit hands out, and `remove` takes a number out of the ready ones. `first_ready` finds the
//! message that is dispatched next: the least ready number whose event's target is idle and whose sponsor runs.
//! `first_ready_goes_first` says that this is the message that the written turn dispatches.
#![tactic(auto)]

mod laws;
mod queue;
mod release;
mod start;

pub use laws::first_ready_goes_first;
pub use queue::Queue;
pub use release::append_all;
pub use std::alloc::AllocError as NoMemory;
