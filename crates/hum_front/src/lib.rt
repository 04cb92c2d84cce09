//! Reads the text of a program: `read_text` gives its tree and its numbered tree, or why the text is refused and at which byte.
//!
//! `line_column` gives the line and the column of a byte, and `name_at` the name that stands there.
#![tactic(auto)]

mod error;
mod laws;
mod places;
mod reading;

pub use error::StartError;
pub use laws::{
    each_text_is_accepted_or_refused, names_stand_at_their_places, refused_texts_are_not_accepted,
    texts_have_one_refusal, texts_have_one_tree,
};
pub use places::{LineColumn, line_column, name_at};
pub use reading::{Reading, read_text};
