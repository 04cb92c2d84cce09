//! Cuts a text into tokens: `lex` gives the tokens of a text, or the first place at which it has none and the cause.
#![tactic(auto)]

mod bytes;
mod error;
mod front;
mod laws;
mod text;
mod whole;
mod word;

pub use bytes::{Class, len_of};
pub use error::{LexCause, LexError, LexRefused};
pub use laws::{
    refused_texts_have_no_tokens, texts_have_one_refusal, texts_have_one_token_list,
    texts_have_tokens_or_a_refusal, tokens_carry_what_they_may, tokens_stand_at_their_places,
};
pub use whole::lex;
