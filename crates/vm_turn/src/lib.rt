//! The machine's state and its turn, as definitions that compute, with their first laws.
//!
//! `specs/` defines the state that an image boots to, what a device writes for a message, one turn of the machine, and runs of turns.
//! The types of the journal and of a turn's answer stand here, since the definitions and the machine share them: `Entry`, `Outcome` and
//! `Turn`.
//!
//! The laws are functions without a body. `turns_end` says how many turns can be completed, `turns_change` what a turn may change, and
//! `least_goes_first` and `others_wait` which message is dispatched. `accounts_add_up` says what each account keeps, `grants_are_conserved`
//! that what is spent and held is the grant, and `events_spend_what_is_paid` that what is spent is what events were charged.
//! `events_stand_once` says that no event stands at two places, `rolls_stand` which actors the roll names and which of them events in flight
//! have, `ended_actors_rest` that the actor of an event that ended is idle, and `flights_fit_lanes` that there are no more events in flight
//! than lanes. `images_stay` and `code_stays_in_images` say that code is what the image holds, and `root_stays_alone` when the root is the
//! only sponsor. `events_keep_authority`, `posts_keep_authority` and `commits_keep_authority` say what an event gets at, which sponsors it
//! names in `actor post` and what it hands on: what it had at its dispatch and what it made since; `events_have_begun` says that there was
//! a dispatch.
//!
//! What every turn keeps is `Sound` and `FlightSound` in `specs/Sound.antt`, `RollSound` in `specs/Roll.antt`, and `WordsTaken` in
//! `specs/Authority.antt`. Crates above cite `proofs/Bound.antt`, `proofs/FlightActors.antt`, `proofs/Rolls.antt` and `proofs/WordsKept.antt`
//! for that, `proofs/RunsSound.antt` for boot and runs, `proofs/TurnCases.antt` for a turn by its cases, with what events have spent after
//! it, `proofs/Places.antt` for what it says of single messages, events and signals, and `proofs/Actors.antt` for what changes of actors
//! leave of a store.
#![tactic(auto)]

mod journal;
mod laws;

pub use journal::{Entry, Outcome, Turn};
pub use laws::{
    accounts_add_up, code_stays_in_images, commits_keep_authority, ended_actors_rest,
    events_have_begun, events_keep_authority, events_spend_what_is_paid, events_stand_once,
    flights_fit_lanes, grants_are_conserved, images_stay, least_goes_first, others_wait,
    posts_keep_authority, rolls_stand, root_stays_alone, turns_change, turns_end,
};
