//! The tests of whole machines.
//!
//! A crate that has tests is proved once more with them, so they stand here, above the crates that they call.
#![tactic(auto)]

#[cfg(test)]
mod debugger;
#[cfg(test)]
mod machine;
#[cfg(test)]
mod modules;
#[cfg(test)]
mod rows;
