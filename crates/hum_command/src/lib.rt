//! The commands: what the words of a call ask for, what each command answers and why, and what it writes and leaves.
//!
//! `humus_main` does what the words say over any folder and sinks, and leaves a `Record` of the run or the machine.
#![tactic(auto)]

mod answer;
mod asm;
mod chain;
mod debug;
mod ending;
mod exec;
mod keys;
mod link;
mod load;
mod reading;
mod record;
mod refusal;
mod report;
mod run;
mod top;
mod words;

pub use chain::chain_text;
pub use record::Record;
pub use top::humus_main;
