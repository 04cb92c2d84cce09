//! One instruction of an event in flight, by the table.
//!
//! `Lane` is an event in flight: the number of its message, its event, the next code word, its stack and its effects. `step` takes one
//! instruction: it fetches the operation, lets the event's sponsor pay, and does what the row of the operation says.
#![tactic(auto)]

mod actors;
mod arithmetic;
mod cells;
mod charge;
mod flow;
mod group;
mod instruction;
mod lane;
mod lists;
mod pairs;
mod reads;
mod sponsors;
mod stack;
mod taking;
mod types;
mod words;

pub use instruction::step;
pub use lane::{Lane, StepEnd};
pub use reads::fetch;
