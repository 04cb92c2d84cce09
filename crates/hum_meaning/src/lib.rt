//! What programs mean, as definitions that compute, with their laws. No call of a program.
//!
//! `specs/` defines, from the bottom up, values, environments and behaviours (`Value`), what an event gathers and how
//! it ends (`Action`), comparison (`Same`) and the built-in functions (`BuiltIns`); then evaluation and execution over
//! one node of a tree (`Eval`, `Exec`), whatever the trees are (`Language`), and within a number of steps (`Meaning`);
//! then the language as it is written: its trees and names (`Named`), stretches of functions (`Body`), names in
//! environments (`Look`) and patterns (`Match`, by the parts of `Pattern`); and at last what the devices write
//! (`Piece`), the delivery of one message (`Deliver`), the configuration after a journal (`After`) and what is so of
//! every such configuration (`Sound`). The scope rule is in `Scope`.
//!
//! The laws are functions without a body. What some number of steps decides, every larger one decides so:
//! `evaluation_stays`, `matching_stays`, `execution_stays` and `deliveries_stay`. So a journal leads to one
//! configuration at most: `journals_decide`. The depth to which the definitions go decides nothing:
//! `depth_is_enough`. Events keep configurations sound (`events_keep_soundness`), so each that a journal leads to is
//! sound: `reachable_configurations_are_sound`. In a sound one each pending message has a target:
//! `messages_have_targets`. What fails has one of the codes of failures: `failures_have_codes`. The scope rule judges
//! each name once: `each_name_is_judged`.
//!
//! Programs that are worked out by computation stand in `proofs/Examples.antt`, `proofs/BuiltInExamples.antt`,
//! `proofs/EventExamples.antt` and, for the scope rule, `proofs/ScopeExamples.antt`.
#![tactic(auto)]

mod cause;
mod laws;

pub use cause::ScopeCause;
pub use laws::{
    deliveries_stay, depth_is_enough, each_name_is_judged, evaluation_stays, events_keep_soundness,
    execution_stays, failures_have_codes, journals_decide, matching_stays, messages_have_targets,
    reachable_configurations_are_sound,
};
