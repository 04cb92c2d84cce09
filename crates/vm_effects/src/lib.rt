//! The effects of an event: what it will have done when it commits, gathered in cells and handed out whole or dropped whole.
//!
//! `Effects` begins empty with `begin`; `send`, `create`, `assign` and `become_with` gather; `commit` gives the actor its behaviour and
//! hands both lists out as `Released`; `drop_all` gives up all of it. `make_idle` lets the created actors of a commit take messages.
#![tactic(auto)]

mod cells;
mod chain;
mod effects;
mod release;

pub use effects::{Effects, NotFresh, Released, Twice};
pub use release::make_idle;
