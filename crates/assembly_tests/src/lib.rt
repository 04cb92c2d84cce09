//! The tests of assembly texts, of linking, of images and of their listings.
//!
//! A crate that has tests is proved once more with them, so they stand here, above the crates that they call.
#![tactic(auto)]

#[cfg(test)]
mod images;
#[cfg(test)]
mod links;
#[cfg(test)]
mod listings;
#[cfg(test)]
mod texts;
