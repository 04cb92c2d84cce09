//! What the table of lines has to do with the machine's table.

ghost use Rattle.uasm_read.specs.Laws.{LinesSpell, OperationsHaveLines};

/// Each line of the table makes a cell that spells an operation of the instruction table: the number is the operation's, and an operand
/// that the line may have is one that the operation may have.
pub fn lines_spell_operations()
    ensures { LinesSpell }
{}

/// Each cell that spells an operation of the instruction table is that of a line: its first word is the number of a line's operation, and
/// its second word, as a number, a constant or a name, is an operand that the line may have.
pub fn operations_have_lines()
    ensures { OperationsHaveLines }
{}
