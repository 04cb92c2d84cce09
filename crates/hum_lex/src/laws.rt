//! What is so of the tokens of texts, and of their refusals.

ghost use Rattle.hum_lex.specs.Laws.{OneTokenList, OneRefusal, NeverBoth, OneOfBoth, TokensStand, TokensAreCarried};

/// A text has one list of tokens at most, whatever they weigh.
pub fn texts_have_one_token_list()
    ensures { OneTokenList }
{}

/// A text is refused at one place at most, and for one cause.
pub fn texts_have_one_refusal()
    ensures { OneRefusal }
{}

/// A text that is refused has no tokens.
pub fn refused_texts_have_no_tokens()
    ensures { NeverBoth }
{}

/// Each text has tokens or is refused.
pub fn texts_have_tokens_or_a_refusal()
    ensures { OneOfBoth }
{}

/// The bytes of each token of a text stand in the text at the token's place.
pub fn tokens_stand_at_their_places()
    ensures { TokensStand }
{}

/// Each number among the tokens of a text is in range, and each name, symbol and text among them has its form.
pub fn tokens_carry_what_they_may()
    ensures { TokensAreCarried }
{}
