//! The tests of the outside, of words and quads and of the parts of the machine, a file for each crate.
//!
//! A crate that has tests is proved once more with them, so they stand here, above the crates that they call.
#![tactic(auto)]

#[cfg(test)]
mod devices;
#[cfg(test)]
mod dictionaries;
#[cfg(test)]
mod effects;
#[cfg(test)]
mod instructions;
#[cfg(test)]
mod outside;
#[cfg(test)]
mod quads;
#[cfg(test)]
mod queue;
#[cfg(test)]
mod sponsors;
#[cfg(test)]
mod steps;
#[cfg(test)]
mod words;
