// What is so of every text.

ghost use Rattle.hum_front.specs.Laws.{OneTree, OneRefusal, NeverBoth, OneOfBoth, NamesStand};

/// A text has one tree at most.
pub fn texts_have_one_tree()
    ensures { OneTree }
{}

/// A text is refused in one way at most.
pub fn texts_have_one_refusal()
    ensures { OneRefusal }
{}

/// A text that is refused is not accepted.
pub fn refused_texts_are_not_accepted()
    ensures { NeverBoth }
{}

/// Each text is accepted or refused.
pub fn each_text_is_accepted_or_refused()
    ensures { OneOfBoth }
{}

/// The name of each number among a text's tokens stands in the text at its place, and no byte of a run follows it.
pub fn names_stand_at_their_places()
    ensures { NamesStand }
{}
