//! The words of the machine: 32 bits that are a fixnum, a constant, or the number of a quad; quads of four words; names.
//!
//! `Word`, `Kind`, `Quad`, `Tag` and `Name`, and the arithmetic of fixnums: `wrap_add`, `wrap_sub`, `wrap_mul`, `compare`; `is_same` compares words.
//! The law of that arithmetic is a function without a body, `wraps_to_the_one_in_range`.
#![tactic(auto)]

mod fixnums;
mod laws;
mod name;
mod word;

pub use fixnums::{compare, wrap_add, wrap_mul, wrap_sub};
pub use laws::wraps_to_the_one_in_range;
pub use name::Name;
pub use word::{Kind, Quad, Tag, Word, is_same};
