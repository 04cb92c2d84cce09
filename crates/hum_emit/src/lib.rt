//! The code that a program becomes: its definitions, what is so of it, and the calls that make it and its module.
//!
//! Code is made from the back: a piece gets the number of the instruction to go on with, and puts its own in front (`specs/Emitted.antt`).
//! `Templates.antt` is the table of the emitter, the code of each part of a program; `Routines.antt` has the routines of the fixed code, and
//! `Runtime.antt` that code; `Program.antt` is all that a program becomes, whose units stand in the shapes of `Shapes.antt`, which fit:
//! `shapes_of_programs_fit`. What is emitted stands for the program in each store that holds it: `emitted_code_stands`. `emit` makes the
//! module of a program (`Module.antt`), the image of a well made emission holds each instruction and each datum at its place,
//! `linked_holds` (`Holds.antt`), and so the image that a program's module links to holds the program:
//! `compiled_images_hold_their_programs` (`Compiled.antt`). `emit_with_places` says beside the module where the code of each unit stands in
//! that image: `code_places_stand`.
#![tactic(auto)]

mod builtins;
mod data;
mod emitter;
mod exprs;
mod instruction;
mod laws;
mod module;
mod operations;
mod places;
mod routines;
mod rows;
mod runtime;
mod scope;
mod shape;
mod shapes;
mod statements;
mod whole;

pub use instruction::{Datum, Field, Instruction};
pub use laws::{
    code_places_stand, compiled_images_hold_their_programs, emissions_are_made,
    emissions_are_small, emitted_code_stands, labels_are_places, linked_holds, modules_are_small,
    programs_link, shapes_of_programs_fit,
};
pub use module::module_of;
pub use std::alloc::AllocError as NoMemory;
pub use whole::{PlacedModule, emit, emit_with_places};
