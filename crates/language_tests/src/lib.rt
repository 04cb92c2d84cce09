//! The tests of the language, from tokens to numbered trees, a file for each crate.
//!
//! A crate that has tests is proved once more with them, so they stand here, above the crates that they call.
#![tactic(auto)]

#[cfg(test)]
mod parsing;
#[cfg(test)]
mod patterns;
#[cfg(test)]
mod scope;
#[cfg(test)]
mod texts;
#[cfg(test)]
mod tokens;
#[cfg(test)]
mod trees;
#[cfg(test)]
mod units;
