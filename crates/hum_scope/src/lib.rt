//! The scope rule, and the numbered tree of a program: `resolve`.
//!
//! `check_scope` walks over a tree with the names in sight (`names`, `walk`) and keeps the first name that is refused: each is to be bound,
//! once and within the limit. What it answers is exact: the first refused name where there is one, and else that there is none
//! (`specs/Told.antt`), as the rule in `hum_meaning` has it.
//!
//! `resolve` answers so too, and gives the numbered tree of a program that is not refused, unit for unit the one that `hum_core` defines. A
//! second walk (`translation`) makes it with the entries of the environment in sight (`sight`), by which a name becomes a slot. Units are
//! numbered in order of spelling, each before those in it: it has an empty block at its place until it is made. A group of functions stands
//! with its first one, but the numbers of the others are known only behind them, so a block's statements are put together in a `Body`.
#![tactic(auto)]

mod binding;
mod body;
mod check;
mod entry;
mod laws;
mod names;
mod refusal;
mod resolving;
mod sight;
mod translation;
mod walk;

pub use check::check_scope;
pub use laws::scoped_trees_have_no_refused_name;
pub use refusal::{ScopeError, ScopeRefused};
pub use resolving::resolve;
