//! The machine: its parts, its boot, and one turn.
//!
//! `Core` boots from an image and takes turns over picks that the caller gives; `Machine` draws its picks from a seed. A turn is the written
//! one: it dispatches the first message that can go where a lane is free, and else the event that the pick says takes one instruction. All
//! memory is taken at boot.
#![tactic(auto)]

mod boot;
mod exhausted;
mod finish;
mod machine;
mod parts;
mod picked;
mod ready;
mod roll;
mod start;
mod turn;

pub use machine::{Lanes, Machine};
pub use picked::Core;
pub use std::alloc::AllocError as NoMemory;
