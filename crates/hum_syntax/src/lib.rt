//! Tokens and trees of the language, and what it is for a text to lex to tokens and for tokens to spell a tree; and the text of a tree.
#![tactic(auto)]

mod form;
mod keyword;
mod laws;
mod printer;
mod token;
mod tree;
mod word;
mod writer;

pub use keyword::{KEYWORDS, Keyword};
pub use laws::{
    more_levels_spell, names_are_spelled, names_have_tokens, spelled_trees_are_formed,
    trees_are_light, trees_are_shallow,
};
pub use printer::print;
pub use token::{Token, TokenKind};
pub use tree::{Arm, Branch, Expr, Pat, Stmt, Tree};
pub use word::{Name, Sym, Text};
