// One instruction.

ghost use Rattle.std.specs.Prelude.{◌≡◌, ◌+◌, ◌<◌, ◌^◌, IsTrue};
ghost use Rattle.cap_words.specs.Seen.{seen};
ghost use Rattle.instr_table.specs.Spelling.{is_op};
ghost use Rattle.vm_sponsor.specs.Ledger.{names};
ghost use Rattle.vm_step.specs.declared.group.Group.TheVariants.{Sponsors};
ghost use Rattle.vm_step.specs.Flight.{own_at, Held};
ghost use Rattle.vm_step.specs.Books.{Books};
ghost use Rattle.vm_step.specs.Step.{Steps, Stays};
ghost use Rattle.vm_step.specs.Reads.{own_in};
ghost use Rattle.vm_step.specs.Whole.{AreWhole};
ghost use Rattle.vm_step.specs.Groups.{group_of};
ghost use Rattle.vm_step.specs.Moves.{Ready, Turns, plain_row};
ghost use Rattle.vm_step.specs.Paid.{Paid, Acts, paid_row_in};

use crate::actors::on_actors;
use crate::cells::on_cells;
use crate::charge::charge_of;
use crate::flow::on_flow;
use crate::group::{Group, group_of};
use crate::lane::{Lane, StepEnd};
use crate::lists::on_lists;
use crate::reads::{OwnWords, fetch};
use crate::sponsors::on_sponsors;
use crate::stack::on_stack;
use crate::words::on_words;
use cap_words::Word;
use instr_table::{Charge, Op};
use quad_memory::Quads;
use vm_sponsor::Sheet;

/// Takes one instruction of an event in flight, as the row of its operation says.
///
/// The event's sponsor pays first. Where it holds too little nothing changes, and the answer is `RanOut` with the first kind of cycles,
/// memory and events of which it does. `Abort` comes where the row faults, with its reason, and `Commit` where it commits; both leave the
/// event's effects to the caller.
pub fn step(quads: &mut Quads, sheet: &mut Sheet, lane: &mut Lane) -> StepEnd
    requires books { Books quads.old sheet.old }
    requires held { Held quads.old.store (names sheet.old.rows) lane.old }
    requires transfers { sheet.old.transfers < 2 ^ 32 }
    ensures steps { Steps quads.old quads.new sheet.old sheet.new lane.old lane.new result }
    ensures stays { Stays quads.old quads.new sheet.old sheet.new }
{
    let own = OwnWords::of(quads, lane.event);
    match fetch(quads, lane.code) {
        Some((op, next)) => {
            let charge = charge_of(quads, sheet, lane, &op);
            match sheet.spend(quads, own.sponsor, charge) {
                Ok(()) => act(quads, sheet, lane, &own, &op, next),
                Err(short) => StepEnd::RanOut(short.kind),
            }
        }
        None => {
            let charge = Charge {
                quads: 0,
                events: 0,
            };
            match sheet.spend(quads, own.sponsor, charge) {
                Ok(()) => StepEnd::Abort(Word::number_word(16)),
                Err(short) => StepEnd::RanOut(short.kind),
            }
        }
    }
}

// Does what the row of an operation says that was paid.
fn act(
    quads: &mut Quads,
    sheet: &mut Sheet,
    lane: &mut Lane,
    own: &OwnWords,
    op: &Op,
    next: Word,
) -> StepEnd
    requires in_row { IsTrue (is_op op.now) }
    requires own { own_in own.now ≡ own_at (seen quads.old.store) lane.old.event }
    requires transfers { sheet.old.transfers < 2 ^ 32 }
    requires paid { Paid quads.old sheet.old lane.old (paid_row_in quads.old sheet.old lane.old op.now next).charge.quads }
    ensures acts { Acts quads.old quads.new sheet.old sheet.new lane.old lane.new (paid_row_in quads.old sheet.old lane.old op.now next).outcome result }
    ensures stays { Stays quads.old quads.new sheet.old sheet.new }
{
    match group_of(op) {
        Group::Sponsors => on_sponsors(quads, sheet, lane, own, op, next),
        _ => turn(quads, lane, own, op, next),
    }
}

// Does what the row of an operation on no sponsor says.
fn turn(quads: &mut Quads, lane: &mut Lane, own: &OwnWords, op: &Op, next: Word) -> StepEnd
    requires in_row { IsTrue (is_op op.now) }
    requires own { own_in own.now ≡ own_at (seen quads.old.store) lane.old.event }
    requires plain { group_of op.now ≡ Sponsors → ⊥ }
    requires whole { AreWhole quads.old.store }
    requires ready { Ready quads.old lane.old (plain_row quads.old lane.old op.now next).charge.quads }
    ensures { Turns quads.old quads.new lane.old lane.new (plain_row quads.old lane.old op.now next).outcome result }
{
    match group_of(op) {
        Group::Stack => on_stack(quads, lane, op, next),
        Group::Cells => on_cells(quads, lane, op, next),
        Group::Words => on_words(quads, lane, own, op, next),
        Group::Flow => on_flow(quads, lane, op, next),
        Group::Lists => on_lists(quads, lane, op, next),
        Group::Actors => on_actors(quads, lane, own, op, next),
        Group::Sponsors => unreachable!(),
    }
}
