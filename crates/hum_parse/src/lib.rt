//! Reads the tree that tokens spell: `parse` gives it, or the first place at which the tokens can no longer begin one.
#![tactic(auto)]

mod expressions;
mod grammar;
mod laws;
mod patterns;
mod round_trip;
mod statements;
mod terms;
mod tokens;
mod whole;

pub use laws::{
    tokens_are_refused_at_one_place, tokens_spell_a_tree_or_are_refused, tokens_spell_one_tree,
    tokens_spell_one_tree_at_each_level,
};
pub use round_trip::read_back;
pub use whole::{ParseError, parse};
