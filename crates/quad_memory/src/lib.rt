//! The memory of quads: the cells of an image, and RAM quads that are taken one after another and never given back.
//!
//! `Image` is a ROM with its boot word. `Quads` holds an image's cells and the RAM: `put`, `put_actor`, `put_event` and `put_sponsor`
//! take quads (`take` and its kin where room is known), `read`, `actor`, `event` and `sponsor` read them, and `set_actor`, `set_event`
//! and `set_sponsor` change the cell that a word names. No call changes an ordinary cell: `ordinary_cells_stand`.
#![tactic(auto)]

mod cells;
mod image;
mod quads;

pub use cells::{ActorCell, EventCell, SponsorCell};
pub use image::Image;
pub use quads::{Quads, ordinary_cells_stand};
pub use std::alloc::AllocError as NoMemory;
