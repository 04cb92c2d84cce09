//! The tests of the commands: what words answer, write and leave over files and sinks in memory.
//!
//! A crate that has tests is proved once more with them, so they stand here, above the crate that they call.
#![tactic(auto)]

#[cfg(test)]
mod calls;
#[cfg(test)]
mod debugging;
#[cfg(test)]
mod links;
#[cfg(test)]
mod listings;
#[cfg(test)]
mod machines;
#[cfg(test)]
mod outside;
#[cfg(test)]
mod runs;
#[cfg(test)]
mod words;
