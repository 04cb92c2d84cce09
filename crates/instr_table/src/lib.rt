//! The instruction table: which quads spell which operations, what each costs, and, as definitions, what each does.
//!
//! `decode` and `encode` go from quads to operations and back; `op_charge` is the table's column of charges. The definitions of the
//! rows stand in `specs/`: `Row` has one case for each operation.
#![tactic(auto)]

mod charge;
mod decoding;
mod encoding;
mod laws;
mod op;

pub use charge::{Charge, Quota, op_charge};
pub use decoding::decode;
pub use encoding::encode;
pub use laws::{
    assigns_to_own, changes_keep_shown, charges_as_listed, charges_by_state, hands_on_what_it_has,
    keeps_authority, keeps_code_out_of_ram, makes_what_it_names, plain_rows_leave_sponsors,
    shown_stays, takes_what_it_charges,
};
pub use op::Op;
