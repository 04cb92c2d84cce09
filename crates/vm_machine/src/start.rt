// Messages that are dispatched.

ghost use Rattle.std.specs.Prelude.{◌≡◌, ◌+◌, ◌<◌, ◌≤◌, Some, true, pos, length, slice_get, [], ◌∷◌, ◌++◌, vec_len, vec_capacity, IfSome, OnErr};
ghost use Rattle.std.specs.List.{Contains};
ghost use Rattle.cap_words.specs.Words.{W, Fix, undef};
ghost use Rattle.cap_words.specs.Seen.{ActorSlot, EventSlot, seen, slot_seen};
ghost use Rattle.quad_memory.specs.Cells.{actor_at, event_at};
ghost use Rattle.vm_turn.specs.Actors.{sent_at};
ghost use Rattle.vm_turn.specs.Piece.{piece};
ghost use Rattle.vm_turn.specs.Turn.{begin, deliver, device_of, dispatch};
ghost use Rattle.event_queue.specs.Pending.{event_of};
ghost use Rattle.event_queue.specs.Starts.{can_start, StartsFirst};
ghost use Rattle.hum_outside.specs.Outside.{HasCause};
ghost use Rattle.vm_step.specs.declared.lane.Lane.{Lane};
ghost use Rattle.vm_machine.specs.View.{state_of};
ghost use Rattle.vm_machine.specs.Known.{Knows};
ghost use Rattle.vm_machine.specs.Whole.{Kept};
ghost use Rattle.vm_machine.specs.Deliveries.{end_by};
ghost use Rattle.vm_machine.specs.Turns.{Takes, Quiet};

use crate::parts::{Known, Parts, note};
use cap_words::{Word, is_same};
use hum_outside::Sink;
use quad_memory::{ActorCell, EventCell, Quads};
use vm_devices::{Done, Scratch, WriteFault};
use vm_effects::Effects;
use vm_step::Lane;
use vm_turn::{Entry, Outcome, Turn};

// The event of a ready message begins, and its actor is busy.
fn begin(parts: &mut Parts, number: u32, event: Word)
    requires kept { Kept parts.old }
    requires free { length parts.old.flight.items < parts.old.lanes }
    requires ready { Contains parts.old.queue.ready number }
    requires event { slice_get parts.old.queue.given number ≡ Some event }
    requires starts { can_start parts.old.quads.store event ≡ true }
    ensures kept { Kept parts.new }
    ensures state { state_of parts.new ≡ begin (state_of parts.old) number (sent_at (state_of parts.old).store event) }
    ensures grant { parts.new.grant ≡ parts.old.grant }
    ensures stuck { parts.new.stuck ≡ parts.old.stuck }
{
    let target = event_cell(&parts.quads, event).target;
    let actor = actor_cell(&parts.quads, target);
    parts.quads.set_actor(
        target,
        ActorCell {
            mark: busy_mark(number),
            ..actor
        },
    );
    parts.queue.remove(number);
    let lane = Lane {
        number,
        event,
        code: actor.code,
        stack: Word::NIL,
        depth: 0,
        effects: Effects::begin(),
    };
    add_lane(&mut parts.flight, lane);
}

// A ready message goes to a device, and ends.
fn deliver<K: Sink>(
    parts: &mut Parts,
    scratch: &mut Scratch,
    number: u32,
    device: u32,
    message: Word,
    out: &mut K,
) -> Result<Turn, WriteFault>
    requires kept { Kept parts.old }
    requires ready { Contains parts.old.queue.ready number }
    requires device { device < 2 }
    ensures kept { Kept parts.new }
    ensures turn { Takes (deliver (state_of parts.old) number (piece device (state_of parts.old).store message)) result (state_of parts.old) (state_of parts.new) (K.written out.old) (K.written out.new) }
    ensures quiet { Quiet (deliver (state_of parts.old) number (piece device (state_of parts.old).store message)) result (K.written out.old) (K.written out.new) (K.faults out.old) (K.faults out.new) }
    ensures unchanged { OnErr result (parts.new ≡ parts.old) }
    ensures cause { HasCause (K.faults out.old) (K.faults out.new) result }
    ensures grant { parts.new.grant ≡ parts.old.grant }
    ensures stuck { parts.new.stuck ≡ parts.old.stuck }
{
    let done = vm_devices::deliver(&parts.quads, device, message, scratch, out)?;
    parts.queue.remove(number);
    let entry = Entry {
        message: number,
        outcome: outcome_of(done),
    };
    note(&mut parts.journal, &entry);
    Ok(Turn::Finished(entry))
}

// How a delivery to a device ends its message.
fn outcome_of(done: Done) -> Outcome
    ensures { result ≡ end_by done }
{
    match done {
        Done::Committed => Outcome::Committed,
        Done::Refused => Outcome::Failed(Word::number_word(8)),
    }
}

// The device that a word names, known by its cell.
fn device_of(known: &Known, target: Word) -> Option<u32>
    requires { Knows known.now }
    ensures device { result ≡ device_of target }
    ensures few { IfSome result (λ d. d < 2) }
{
    if is_same(target, known.println) {
        Some(0)
    } else if is_same(target, known.say) {
        Some(1)
    } else {
        None
    }
}

// A ready message that can start is dispatched: to a device it is delivered whole.
pub(crate) fn dispatch<K: Sink>(
    parts: &mut Parts,
    scratch: &mut Scratch,
    number: u32,
    out: &mut K,
) -> Result<Turn, WriteFault>
    requires kept { Kept parts.old }
    requires free { length parts.old.flight.items < parts.old.lanes }
    requires first { StartsFirst parts.old.quads.store parts.old.queue number }
    ensures kept { Kept parts.new }
    ensures turn { Takes (dispatch (state_of parts.old) number (sent_at (state_of parts.old).store (event_of parts.old.queue.given number)) (device_of (sent_at (state_of parts.old).store (event_of parts.old.queue.given number)).target)) result
        (state_of parts.old) (state_of parts.new) (K.written out.old) (K.written out.new) }
    ensures quiet { Quiet (dispatch (state_of parts.old) number (sent_at (state_of parts.old).store (event_of parts.old.queue.given number)) (device_of (sent_at (state_of parts.old).store (event_of parts.old.queue.given number)).target)) result
        (K.written out.old) (K.written out.new) (K.faults out.old) (K.faults out.new) }
    ensures unchanged { OnErr result (parts.new ≡ parts.old) }
    ensures cause { HasCause (K.faults out.old) (K.faults out.new) result }
    ensures grant { parts.new.grant ≡ parts.old.grant }
    ensures stuck { parts.new.stuck ≡ parts.old.stuck }
{
    let event = event_word(parts, number);
    let cell = event_cell(&parts.quads, event);
    match device_of(&parts.known, cell.target) {
        Some(device) => deliver(parts, scratch, number, device, cell.message, out),
        None => {
            begin(parts, number, event);
            Ok(Turn::Dispatched)
        }
    }
}

// The event of a number that was given.
fn event_word(parts: &Parts, number: u32) -> Word
    requires { number < length parts.now.queue.given }
    ensures given { slice_get parts.now.queue.given number ≡ Some result }
    ensures event { result ≡ event_of parts.now.queue.given number }
{
    match parts.queue.event(number) {
        Some(event) => event,
        None => unreachable!(),
    }
}

// Adds a lane, for which there is room.
fn add_lane(flight: &mut Vec<Lane>, lane: Lane)
    requires { vec_len flight.old < vec_capacity flight.old }
    ensures items { flight.new.items ≡ flight.old.items ++ lane ∷ [] }
    ensures len { vec_len flight.new ≡ vec_len flight.old + 1 }
    ensures capacity { vec_capacity flight.old ≤ vec_capacity flight.new }
{
    let row = [lane];
    match flight.extend_from_slice(&row) {
        Ok(()) => {}
        Err(_) => unreachable!(),
    }
}

// The cell of an event that can start.
fn event_cell(quads: &Quads, event: Word) -> EventCell
    requires { can_start quads.now.store event ≡ true }
    ensures { event_at quads.now.store event ≡ Some result }
{
    quads.known_event(event)
}

// The cell of an idle actor.
fn actor_cell(quads: &Quads, actor: Word) -> ActorCell
    requires { (code : W) × (state : W) × (slot_seen (seen quads.now.store) actor ≡ Some (ActorSlot code state undef)) }
    ensures { actor_at quads.now.store actor ≡ Some result }
{
    quads.known_actor(actor)
}

// The mark of an actor that is busy with the message of that number.
fn busy_mark(number: u32) -> Word
    requires { number ≤ 4194304 }
    ensures { result ≡ Fix (pos number) }
{
    Word::number_word(number as i32)
}
