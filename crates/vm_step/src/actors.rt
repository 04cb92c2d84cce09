// Operations on actors.

ghost use Rattle.std.specs.Prelude.{◌≡◌, IsTrue};
ghost use Rattle.cap_words.specs.Seen.{seen};
ghost use Rattle.instr_table.specs.ActorRows.{message_to, send_row, post_row, create_row, assign_row, become_row};
ghost use Rattle.instr_table.specs.Spelling.{is_op};
ghost use Rattle.vm_effects.specs.Gathered.{effects_of};
ghost use Rattle.vm_step.specs.declared.group.Group.TheVariants.{Actors};
ghost use Rattle.vm_step.specs.Flight.{own_at};
ghost use Rattle.vm_step.specs.Groups.{group_of};
ghost use Rattle.vm_step.specs.Moves.{Ready, Turns, plain_row, values_of};
ghost use Rattle.vm_step.specs.Reads.{own_in};
ghost use Rattle.vm_step.specs.Whole.{AreWhole};

use crate::lane::{Lane, StepEnd};
use crate::reads::OwnWords;
use crate::types::{is_actor, is_sponsor};
use cap_words::Word;
use instr_table::Op;
use quad_memory::{EventCell, Quads};

// Does what the row of such an operation says.
pub(crate) fn on_actors(
    quads: &mut Quads,
    lane: &mut Lane,
    own: &OwnWords,
    op: &Op,
    next: Word,
) -> StepEnd
    requires in_row { IsTrue (is_op op.now) }
    requires own { own_in own.now ≡ own_at (seen quads.old.store) lane.old.event }
    requires group { group_of op.now ≡ Actors }
    requires whole { AreWhole quads.old.store }
    requires ready { Ready quads.old lane.old (plain_row quads.old lane.old op.now next).charge.quads }
    ensures { Turns quads.old quads.new lane.old lane.new (plain_row quads.old lane.old op.now next).outcome result }
{
    match op {
        Op::ActorSend => send(quads, lane, own.sponsor, next),
        Op::ActorPost => post(quads, lane, next),
        Op::ActorCreate => create(quads, lane, next),
        Op::ActorAssign => assign(quads, lane, next),
        Op::ActorBecome => become_with(quads, lane, next),
        _ => unreachable!(),
    }
}

// Sends a message under the event's own sponsor.
fn send(quads: &mut Quads, lane: &mut Lane, sponsor: Word, next: Word) -> StepEnd
    requires { Ready quads.old lane.old 1 }
    ensures { Turns quads.old quads.new lane.old lane.new (send_row sponsor (seen quads.old.store) (values_of quads.old lane.old) next).outcome result }
{
    let target = lane.at(quads, 1);
    let message = lane.at(quads, 2);
    if is_actor(quads, target) {
        send_under(quads, lane, 2, sponsor, target, message, next)
    } else {
        StepEnd::Abort(Word::number_word(3))
    }
}

// Sends a message under the sponsor on top.
fn post(quads: &mut Quads, lane: &mut Lane, next: Word) -> StepEnd
    requires whole { AreWhole quads.old.store }
    requires ready { Ready quads.old lane.old 1 }
    ensures { Turns quads.old quads.new lane.old lane.new (post_row (seen quads.old.store) (values_of quads.old lane.old) next).outcome result }
{
    let sponsor = lane.at(quads, 1);
    let target = lane.at(quads, 2);
    let message = lane.at(quads, 3);
    if !is_sponsor(quads, sponsor) {
        return StepEnd::Abort(Word::number_word(19));
    }
    if !is_actor(quads, target) {
        return StepEnd::Abort(Word::number_word(3));
    }
    send_under(quads, lane, 3, sponsor, target, message, next)
}

// Takes items off the stack and sends a message.
fn send_under(
    quads: &mut Quads,
    lane: &mut Lane,
    pops: u32,
    sponsor: Word,
    target: Word,
    message: Word,
    next: Word,
) -> StepEnd
    requires { Ready quads.old lane.old 1 }
    ensures { Turns quads.old quads.new lane.old lane.new (message_to pops sponsor (seen quads.old.store) target message next).outcome result }
{
    let event = EventCell {
        sponsor,
        target,
        message,
        next: Word::NIL,
    };
    lane.effects.send(quads, event);
    lane.goes(quads, pops, next)
}

// Creates an actor.
fn create(quads: &mut Quads, lane: &mut Lane, next: Word) -> StepEnd
    requires { Ready quads.old lane.old 2 }
    ensures { Turns quads.old quads.new lane.old lane.new (create_row (seen quads.old.store) (values_of quads.old lane.old) next).outcome result }
{
    let code = lane.at(quads, 1);
    let state = lane.at(quads, 2);
    let actor = lane.effects.create(quads, code, state);
    lane.gives(quads, 2, actor, next)
}

// Gives an actor that this event created another behaviour.
fn assign(quads: &mut Quads, lane: &mut Lane, next: Word) -> StepEnd
    requires { Ready quads.old lane.old 0 }
    ensures { Turns quads.old quads.new lane.old lane.new (assign_row (effects_of quads.old.store lane.old.effects) (values_of quads.old lane.old) next).outcome result }
{
    let actor = lane.at(quads, 1);
    let code = lane.at(quads, 2);
    let state = lane.at(quads, 3);
    match lane.effects.assign(quads, actor, code, state) {
        Ok(()) => lane.goes(quads, 3, next),
        Err(_) => StepEnd::Abort(Word::number_word(18)),
    }
}

// Gathers the next behaviour of the event's actor.
fn become_with(quads: &mut Quads, lane: &mut Lane, next: Word) -> StepEnd
    requires { Ready quads.old lane.old 0 }
    ensures { Turns quads.old quads.new lane.old lane.new (become_row (effects_of quads.old.store lane.old.effects).next (values_of quads.old lane.old) next).outcome result }
{
    let code = lane.at(quads, 1);
    let state = lane.at(quads, 2);
    match lane.effects.become_with(code, state) {
        Ok(()) => lane.goes(quads, 2, next),
        Err(_) => StepEnd::Abort(Word::number_word(6)),
    }
}
