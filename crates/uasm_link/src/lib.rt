//! Links modules of assembly to an image: `link` puts the items of the modules one after the other and names by their numbers what
//! labels and exports name.
#![tactic(auto)]

mod cells;
mod error;
mod names;
mod numbers;
mod whole;

pub use error::LinkError;
pub use whole::link;
