//! Numbered trees: what the compiler makes of a program's tree, and what they mean.
//!
//! In a numbered tree a use of a name is a `Slot`, and abstractions and blocks are units with numbers. In `Resolved` patterns are trees; in
//! `Program` they are lists of tests. `specs/` gives both their meaning, by the same evaluator that gives a program its own
//! (`hum_meaning`), and says when a numbered tree stands for a written one.
//!
//! The laws are functions without a body. The numbered tree of a formed file is formed, and that of a scoped file stands for it:
//! `resolved_trees_are_formed` and `scoped_files_stand`. Formed trees stand for what they become with tests: `formed_trees_stand`. What stands
//! for one another means the same, for all numbers of steps: `resolved_trees_mean_the_same` and `lowered_trees_mean_the_same`; and programs
//! begin alike: `programs_begin_alike`. What some number of steps decides, every larger one decides so: `resolved_decisions_stay` and
//! `tested_decisions_stay`.
//!
//! `specs/Bound.antt` says what a delivery may cost. Its bound is the same in each of the languages, and counts steps and messages:
//! `bounds_are_the_same` and `bounds_count_steps_and_sends`.
//!
//! What stands above a compiler needs one law of these, of a whole file and its program: `programs_mean_their_files` (`specs/Programs.antt`,
//! over `specs/Likeness.antt`). It names neither numbered tree, speaks of what can be seen alone, and lets a program take fewer steps than its
//! file.
//!
//! `specs/Sizes.antt` says how large a numbered program is: at most three times as large as its file, and one more (`programs_are_small`).
#![tactic(auto)]

mod laws;
mod resolved;
mod slot;
mod tested;

pub use laws::{
    bounds_are_the_same, bounds_count_steps_and_sends, formed_trees_stand,
    lowered_trees_mean_the_same, programs_are_small, programs_begin_alike,
    programs_mean_their_files, resolved_decisions_stay, resolved_trees_are_formed,
    resolved_trees_mean_the_same, scoped_files_stand, tested_decisions_stay,
};
pub use resolved::{CoreArm, CoreBranch, CoreExpr, CorePat, CoreStmt, CoreUnit, Resolved};
pub use slot::{Const, Slot};
pub use tested::{Program, Test, TestArm, TestBranch, TestExpr, TestStmt, TestUnit};
