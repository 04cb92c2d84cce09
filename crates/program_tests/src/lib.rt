//! The tests of whole programs, from their text to what they write and how their events end.
//!
//! A crate that has tests is proved once more with them, so they stand here, above the crates that they call.
#![tactic(auto)]

#[cfg(test)]
mod drives;
#[cfg(test)]
mod places;
#[cfg(test)]
mod programs;
#[cfg(test)]
mod tall;
#[cfg(test)]
mod whole_runs;
