//! Sponsors: what each one received, passed on, spent and holds of memory, events and cycles, and whether it runs.
//!
//! `Sheet` has a row for each sponsor, in order of making: `with_root` makes the first one, with a `Grant`, and `make` the others.
//! `grant` and `reclaim` move amounts from one sponsor to another, `spend` pays for an instruction, `start` and `stop` say whether a
//! sponsor runs, and `running` and `row` read. What a sponsor holds and has spent stands in its two quads. No call makes an amount out
//! of nothing: `amounts_are_conserved`.
#![tactic(auto)]

mod amounts;
mod answer;
mod cell;
mod grant;
mod sheet;

pub use amounts::{Amounts, SheetRow};
pub use answer::{RanOut, Running, Short};
pub use grant::Grant;
pub use sheet::{Sheet, amounts_are_conserved};
pub use std::alloc::AllocError as NoMemory;
