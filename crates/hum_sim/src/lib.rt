//! The simulation: the machine that runs the image of a text stands for the text's configuration after its journal.
//!
//! `compile` makes the image of a text, or says why the text is refused. `Sim::turn` takes a turn of the machine that runs it, for 1 to 64
//! events in flight. What a state stands for is in `specs/Standing.antt`, what a run keeps in `specs/Runs.antt`. The laws are functions
//! without a body: `turns_keep_the_standing` for each turn and pick, `runs_follow_their_journals` for whole runs, `output_is_the_texts` and
//! `runs_come_to_rest` for one lane, and `compiled_images_hold_their_files` for the images that compiled modules link to.
#![tactic(auto)]

mod compiling;
mod laws;
mod simulation;

pub use compiling::{Compiled, compile};
pub use laws::{
    compiled_images_hold_their_files, output_is_the_texts, runs_come_to_rest,
    runs_follow_their_journals, turns_keep_the_standing,
};
pub use simulation::Sim;
