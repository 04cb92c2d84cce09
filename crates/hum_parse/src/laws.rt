//! What is so of the trees that tokens spell, and of the places of refusals.

ghost use Rattle.hum_parse.specs.Laws.{OneTree, OneAtEachLevel, OnePlace, OneOfBoth};

/// Tokens spell one tree at most.
pub fn tokens_spell_one_tree()
    ensures { OneTree }
{}

/// However deep they may be, tokens spell one list of statements at most.
pub fn tokens_spell_one_tree_at_each_level()
    ensures { OneAtEachLevel }
{}

/// Tokens are refused at one place at most.
pub fn tokens_are_refused_at_one_place()
    ensures { OnePlace }
{}

/// Tokens spell a tree or are refused.
pub fn tokens_spell_a_tree_or_are_refused()
    ensures { OneOfBoth }
{}
