//! Code that stands for a program, and that it does what the program means. No call of a program.
//!
//! `specs/` says, from the bottom up, what an event of a program's code comes to, whatever others do between its instructions (`Comes`),
//! and what the machine's rows reach from its dispatch (`Reaches`); where the parts of a program stand in its image (`Layout`); which words
//! stand for which values, environments and effects (`Stands`); which instructions stand for expressions, tests, statements and units
//! (`Code`), and which are the fixed code (`Runtime`); and then an event of an actor whose program's code stands in a store (`Emission`, and
//! `Opening` for the first actor), and that it follows its delivery (`Ending`) within its bound (`Bounds`). An image holds a program where
//! its code stands in each store with the image's cells (`Program`).
//!
//! The laws are functions without a body: `code_means_the_program` and `opening_means_the_file`, both in `programs_follow` for an image that
//! holds a program; `messages_are_under_the_payer`; and `standing_stays`, that others take nothing from what stands for a value.
#![tactic(auto)]

mod laws;

pub use laws::{
    code_means_the_program, messages_are_under_the_payer, opening_means_the_file, programs_follow,
    standing_stays,
};
