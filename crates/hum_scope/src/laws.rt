// What is so of every tree.

ghost use Rattle.hum_scope.specs.Told.{ScopedTreesHaveNoRefusedName};

/// A tree is scoped exactly where no name of it is refused.
pub fn scoped_trees_have_no_refused_name()
    ensures { ScopedTreesHaveNoRefusedName }
{}
