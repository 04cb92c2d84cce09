// Operations on the stack alone.

ghost use Rattle.std.specs.Prelude.{◌≡◌, ◌-◌, ◌≤◌, IsTrue, pos, negsuc, length, reverse};
ghost use Rattle.cap_words.specs.Words.{Fix};
ghost use Rattle.cap_words.specs.Seen.{seen};
ghost use Rattle.instr_table.specs.Lists.{top_items, rolled};
ghost use Rattle.instr_table.specs.Outcome.{goes};
ghost use Rattle.instr_table.specs.Spelling.{is_op};
ghost use Rattle.vm_step.specs.declared.group.Group.TheVariants.{Stack};
ghost use Rattle.vm_step.specs.Stack.{IsStack};
ghost use Rattle.vm_step.specs.Groups.{group_of};
ghost use Rattle.vm_step.specs.Moves.{Ready, Moves, Turns, restacking, plain_row, values_of, values_in};

use crate::lane::{Lane, Stack as Items, StepEnd};
use crate::taking::{count_word, size};
use cap_words::Word;
use instr_table::Op;
use quad_memory::Quads;

// Does what the row of such an operation says.
pub(crate) fn on_stack(quads: &mut Quads, lane: &mut Lane, op: &Op, next: Word) -> StepEnd
    requires in_row { IsTrue (is_op op.now) }
    requires group { group_of op.now ≡ Stack }
    requires ready { Ready quads.old lane.old (plain_row quads.old lane.old op.now next).charge.quads }
    ensures { Turns quads.old quads.new lane.old lane.new (plain_row quads.old lane.old op.now next).outcome result }
{
    match op {
        Op::Push(v) => lane.gives(quads, 0, *v, next),
        Op::Drop(n) => lane.goes(quads, size(n), next),
        Op::Dup(n) => dup(quads, lane, size(n), next),
        Op::Roll(n) => {
            if *n > 0 {
                roll_up(quads, lane, size(n), next)
            } else {
                roll_down(quads, lane, size(n), next)
            }
        }
        Op::Pick(n) => {
            let value = lane.at(quads, size(n));
            lane.gives(quads, 0, value, next)
        }
        Op::Depth => {
            let depth = depth_word(quads, lane);
            lane.gives(quads, 0, depth, next)
        }
        _ => unreachable!(),
    }
}

// How many items the stack has.
fn depth_word(quads: &Quads, lane: &Lane) -> Word
    requires { Ready quads.now lane.now 0 }
    ensures { result ≡ Fix (pos (length (values_of quads.now lane.now))) }
{
    let _room = quads.room();
    count_word(lane.depth)
}

// Copies the top items.
fn dup(quads: &mut Quads, lane: &mut Lane, n: u32, next: Word) -> StepEnd
    requires few { n ≤ 15 }
    requires ready { Ready quads.old lane.old n }
    ensures { Turns quads.old quads.new lane.old lane.new (goes 0 (reverse (top_items n (values_of quads.old lane.old))) next).outcome result }
{
    let from = lane.items();
    lane.advance(quads, 0, next);
    push_top(quads, lane, &from, n);
    StepEnd::Going
}

// Moves the n-th item to the top.
fn roll_up(quads: &mut Quads, lane: &mut Lane, n: u32, next: Word) -> StepEnd
    requires some { 1 ≤ n }
    requires few { n ≤ 15 }
    requires ready { Ready quads.old lane.old n }
    ensures { Turns quads.old quads.new lane.old lane.new (goes n (reverse (rolled (pos n) (values_of quads.old lane.old))) next).outcome result }
{
    let from = lane.items();
    let value = from.at(quads, n);
    lane.advance(quads, n, next);
    push_top(quads, lane, &from, n - 1);
    lane.push(quads, value);
    StepEnd::Going
}

// Moves the top item to the n-th place.
fn roll_down(quads: &mut Quads, lane: &mut Lane, n: u32, next: Word) -> StepEnd
    requires some { 1 ≤ n }
    requires few { n ≤ 15 }
    requires ready { Ready quads.old lane.old n }
    ensures { Turns quads.old quads.new lane.old lane.new (goes n (reverse (rolled (negsuc (n - 1)) (values_of quads.old lane.old))) next).outcome result }
{
    let mut from = lane.items();
    let value = from.pop(quads);
    lane.advance(quads, n, next);
    lane.push(quads, value);
    push_top(quads, lane, &from, n - 1);
    StepEnd::Going
}

// Puts the top values of another state of the stack on it, the lowest first.
fn push_top(quads: &mut Quads, lane: &mut Lane, from: &Items, n: u32)
    requires few { n ≤ 15 }
    requires from { IsStack (seen quads.old.store) from.now.depth from.now.word }
    requires ready { Ready quads.old lane.old n }
    ensures { Moves quads.old quads.new lane.old lane.new (restacking 0 (reverse (top_items n (values_in (seen quads.old.store) from.now))) lane.old.code) }
{
    for k in 0..n {
        let value = from.at(quads, n - k);
        lane.push(quads, value);
    }
}
