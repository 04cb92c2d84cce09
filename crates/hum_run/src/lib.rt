//! Whole runs: turns of a machine to an end, with a line on err for each event that fails.
//!
//! `drive` takes the turns of whatever has a machine, alone or with the program that it runs, up to a bound; `Run` is the run of a text, from
//! `Run::start`, which compiles it, over `Run::advance`, which may be called again after each stop. `report_of` counts what a machine's
//! events came to.
#![tactic(auto)]

mod driven;
mod report;
mod run;
mod stop;
mod turns;

pub use driven::Driven;
pub use report::{Report, report_of};
pub use run::Run;
pub use stop::{Stop, WriteFault};
pub use turns::drive;
