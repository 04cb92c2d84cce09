//! Makes the program whose patterns are lists of tests from the one whose patterns are trees: `lower`.
//!
//! What each part becomes is a definition of `hum_core`, and the two programs mean the same by a law of `hum_core`.
#![tactic(auto)]

mod lowering;
mod trees;

pub use lowering::lower;
pub use std::alloc::AllocError as NoMemory;
