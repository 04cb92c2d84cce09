// Operations on the next instruction, and ends.

ghost use Rattle.std.specs.Prelude.{◌≡◌, if◌then◌else◌, IsTrue};
ghost use Rattle.cap_words.specs.Seen.{seen};
ghost use Rattle.instr_table.specs.Arithmetic.{falsy};
ghost use Rattle.instr_table.specs.Spelling.{is_op};
ghost use Rattle.instr_table.specs.Row.{end_row};
ghost use Rattle.vm_step.specs.declared.group.Group.TheVariants.{Flow};
ghost use Rattle.vm_step.specs.Groups.{group_of};
ghost use Rattle.vm_step.specs.Stack.{IsStack};
ghost use Rattle.vm_step.specs.Moves.{Ready, Turns, plain_row, values_of};

use crate::arithmetic::falsy;
use crate::lane::{Lane, StepEnd};
use cap_words::{Word, is_same};
use instr_table::Op;
use quad_memory::Quads;

// Does what the row of such an operation says.
pub(crate) fn on_flow(quads: &mut Quads, lane: &mut Lane, op: &Op, next: Word) -> StepEnd
    requires in_row { IsTrue (is_op op.now) }
    requires group { group_of op.now ≡ Flow }
    requires ready { Ready quads.old lane.old (plain_row quads.old lane.old op.now next).charge.quads }
    ensures { Turns quads.old quads.new lane.old lane.new (plain_row quads.old lane.old op.now next).outcome result }
{
    let top = lane.at(quads, 1);
    match op {
        Op::If(label) => lane.goes(quads, 1, branch(top, next, *label)),
        Op::Jump => lane.goes(quads, 1, top),
        Op::End(n) => end(quads, lane, n),
        Op::Assert(v) => {
            if is_same(top, *v) {
                lane.goes(quads, 1, next)
            } else {
                StepEnd::Abort(Word::number_word(17))
            }
        }
        Op::Debug => lane.goes(quads, 0, next),
        _ => unreachable!(),
    }
}

// The next instruction where a word is falsy, and else the label.
fn branch(w: Word, next: Word, label: Word) -> Word
    ensures { result ≡ (if falsy w then next else label) }
{
    if falsy(w) { next } else { label }
}

// An event's own end, by its number: it fails with the item on top or with its own reason, or commits.
fn end(quads: &Quads, lane: &Lane, n: &i32) -> StepEnd
    requires { IsStack (seen quads.now.store) lane.now.depth lane.now.stack }
    ensures { Turns quads.now quads.now lane.now lane.now (end_row n.now (values_of quads.now lane.now)).outcome result }
{
    if *n == 1 {
        StepEnd::Commit
    } else if *n == 0 {
        StepEnd::Abort(Word::number_word(21))
    } else {
        StepEnd::Abort(lane.at(quads, 1))
    }
}
