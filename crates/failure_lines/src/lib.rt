//! The lines of events that failed: the number of a message, and the text of the reason for which its event failed.
#![tactic(auto)]

mod failure;

pub use failure::put_failure;
