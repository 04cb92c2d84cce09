// How many turns commands take.

ghost use Rattle.quad_debug.specs.Laws.{CommandsEnd, RestsHaveNoTurn};

/// A machine completes a turn exactly where it is not at rest and its root has not run out: a command that takes turns ends with what it
/// waits for, at rest or spent.
pub fn rests_have_no_turn()
    ensures { RestsHaveNoTurn }
{}

/// There is one number of turns that a command takes, and so one text that it writes.
pub fn commands_end()
    ensures { CommandsEnd }
{}
