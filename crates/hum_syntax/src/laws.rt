// What is so of every tree that tokens spell.

ghost use Rattle.hum_syntax.specs.Laws.{SpelledTreesAreFormed, NamesAreSpelled, NamesHaveTokens, TreesAreLight, TreesAreShallow, MoreLevelsSpell};

/// Where each number among the tokens is in range, and each name, symbol and text has its form, a tree that the tokens spell is formed.
pub fn spelled_trees_are_formed()
    ensures { SpelledTreesAreFormed }
{}

/// The names among the tokens are those of the tree that they spell, in order.
pub fn names_are_spelled()
    ensures { NamesAreSpelled }
{}

/// Counted from 0, the tree's name of a number is the name that is spelled by the token before which so many names stand.
pub fn names_have_tokens()
    ensures { NamesHaveTokens }
{}

/// A tree is no larger than the tokens weigh that spell it.
pub fn trees_are_light()
    ensures { TreesAreLight }
{}

/// A tree is at most one level deeper than the levels that are left for its tokens. So the tree of a program is at most 200 deep.
pub fn trees_are_shallow()
    ensures { TreesAreShallow }
{}

/// What tokens spell at a depth they spell at every smaller depth.
pub fn more_levels_spell()
    ensures { MoreLevelsSpell }
{}
