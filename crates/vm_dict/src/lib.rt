//! Dictionaries and deques: lists of linked cells that programs share, so that each change makes new cells in front of old ones.
//!
//! `cost` is what an operation charges. `dict_get`, `dict_add`, `dict_set` and `dict_del` are the operations on dictionaries;
//! `deque_new`, `deque_push`, `deque_put`, `deque_pop`, `deque_pull` and `deque_len` those on deques. A word that is none acts as an empty
//! one, and a list of more than 4,095 cells as its first 4,095.
//!
//! `dictionaries_are_lists`, `keys_stand_apart` and `deques_are_lists` say what these calls do to what a word stands for, and
//! `calls_take_their_cost` that no call takes more or less than was charged.
#![tactic(auto)]

mod cells;
mod charges;
mod deque;
mod dict;
mod laws;

pub use charges::cost;
pub use deque::{Taken, deque_len, deque_new, deque_pop, deque_pull, deque_push, deque_put};
pub use dict::{dict_add, dict_del, dict_get, dict_set};
pub use laws::{calls_take_their_cost, deques_are_lists, dictionaries_are_lists, keys_stand_apart};
