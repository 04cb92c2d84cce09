//! What the devices write: `println` a word's text, and `say` a list of characters in UTF-8, each with a line feed behind it.
//!
//! `deliver` checks a message's whole tree before it writes its first byte, so a message that is refused writes nothing. It walks the tree
//! with the stack of a `Scratch`, which takes its memory once. `trees_are_unfoldings` says which messages have a tree that is checked so.
#![tactic(auto)]

mod cells;
mod delivery;
mod laws;
mod name;
mod speech;
mod text;
mod tree;

pub use delivery::{Done, Scratch, WriteFault, deliver};
pub use laws::trees_are_unfoldings;
pub use std::alloc::AllocError as NoMemory;
