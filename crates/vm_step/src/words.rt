// Operations on words, of the stack or of the event.

ghost use Rattle.std.specs.Prelude.{◌≡◌, IsTrue};
ghost use Rattle.cap_words.specs.Seen.{seen};
ghost use Rattle.instr_table.specs.Spelling.{is_op};
ghost use Rattle.instr_table.specs.Row.{own_word};
ghost use Rattle.vm_step.specs.declared.group.Group.TheVariants.{Words};
ghost use Rattle.vm_step.specs.Flight.{own_at};
ghost use Rattle.vm_step.specs.Groups.{group_of};
ghost use Rattle.vm_step.specs.Moves.{Ready, Turns, plain_row};
ghost use Rattle.vm_step.specs.Reads.{own_in};
ghost use Rattle.vm_step.specs.Whole.{AreWhole};

use crate::arithmetic::{alu, compared, complement};
use crate::lane::{Lane, StepEnd};
use crate::pairs::nth;
use crate::reads::OwnWords;
use crate::types::is_of_type;
use cap_words::{Word, is_same};
use instr_table::Op;
use quad_memory::Quads;

// Does what the row of such an operation says.
pub(crate) fn on_words(
    quads: &mut Quads,
    lane: &mut Lane,
    own: &OwnWords,
    op: &Op,
    next: Word,
) -> StepEnd
    requires in_row { IsTrue (is_op op.now) }
    requires own { own_in own.now ≡ own_at (seen quads.old.store) lane.old.event }
    requires group { group_of op.now ≡ Words }
    requires whole { AreWhole quads.old.store }
    requires ready { Ready quads.old lane.old (plain_row quads.old lane.old op.now next).charge.quads }
    ensures { Turns quads.old quads.new lane.old lane.new (plain_row quads.old lane.old op.now next).outcome result }
{
    let top = lane.at(quads, 1);
    match op {
        Op::Typeq(t) => {
            let answer = Word::truth(is_of_type(quads, top, *t));
            lane.gives(quads, 1, answer, next)
        }
        Op::Eq(v) => lane.gives(quads, 1, Word::truth(is_same(top, *v)), next),
        Op::Cmp(k) => {
            let answer = compared(k, lane.at(quads, 2), top);
            lane.gives(quads, 2, answer, next)
        }
        Op::AluNot => lane.gives(quads, 1, complement(top), next),
        Op::Alu(k) => {
            let answer = alu(k, lane.at(quads, 2), top);
            lane.gives(quads, 2, answer, next)
        }
        Op::Msg(n) => {
            let value = nth(quads, n, own.message);
            lane.gives(quads, 0, value, next)
        }
        Op::State(n) => {
            let value = nth(quads, n, own.state);
            lane.gives(quads, 0, value, next)
        }
        Op::My(n) => lane.gives(quads, 0, own_word(n, own), next),
        _ => unreachable!(),
    }
}

// The actor, its code or its state, by its number from 0 on.
fn own_word(n: &i32, own: &OwnWords) -> Word
    ensures { result ≡ own_word n.now (own_in own.now) }
{
    match *n {
        0 => own.actor,
        1 => own.code,
        _ => own.state,
    }
}
