// Events that end.

ghost use Rattle.std.specs.Prelude.{◌≡◌, ◌+◌, ◌<◌, ◌≤◌, length, slice_get, Some, false};
ghost use Rattle.cap_words.specs.Seen.{EventSlot, seen, slot_seen};
ghost use Rattle.cap_words.specs.Words.{W};
ghost use Rattle.instr_table.specs.Event.{no_effects};
ghost use Rattle.instr_table.specs.Lane.{Lane as Flying};
ghost use Rattle.vm_turn.specs.declared.journal.Outcome.TheVariants.{Committed};
ghost use Rattle.vm_turn.specs.Actors.{sent_at};
ghost use Rattle.vm_turn.specs.Turn.{entry, finish};
ghost use Rattle.vm_machine.specs.View.{state_of};
ghost use Rattle.vm_machine.specs.Whole.{Kept};

use crate::parts::{Parts, note};
use crate::roll::enter_all;
use cap_words::Word;
use event_queue::append_all;
use quad_memory::Quads;
use vm_effects::make_idle;
use vm_turn::{Entry, Outcome};

// The event at that place ends without effects.
pub(crate) fn fail(parts: &mut Parts, place: usize, outcome: Outcome) -> Entry
    requires kept { Kept parts.old }
    requires place { place < length parts.old.flight.items }
    ensures kept { Kept parts.new }
    ensures state { (l : Flying) → slice_get (state_of parts.old).flight place ≡ Some l → state_of parts.new ≡ finish (state_of parts.old) place l (state_of parts.old).sheet no_effects outcome }
    ensures entry { (l : Flying) → slice_get (state_of parts.old).flight place ≡ Some l → result ≡ entry l.number outcome }
    ensures queue { parts.new.queue ≡ parts.old.queue }
    ensures stuck { parts.new.stuck ≡ false }
    ensures grant { parts.new.grant ≡ parts.old.grant }
{
    let lane = parts.flight.remove(place);
    let actor = target_of(&parts.quads, lane.event);
    lane.effects.drop_all(&mut parts.quads, actor);
    let entry = Entry {
        message: lane.number,
        outcome,
    };
    note(&mut parts.journal, &entry);
    parts.stuck = false;
    entry
}

// The event at that place ends, and its effects take place.
pub(crate) fn commit(parts: &mut Parts, place: usize) -> Entry
    requires kept { Kept parts.old }
    requires place { place < length parts.old.flight.items }
    requires fits { (l : Flying) → slice_get (state_of parts.old).flight place ≡ Some l → length parts.old.queue.given + length l.effects.sent ≤ parts.old.queue.room }
    ensures kept { Kept parts.new }
    ensures state { (l : Flying) → slice_get (state_of parts.old).flight place ≡ Some l → state_of parts.new ≡ finish (state_of parts.old) place l (state_of parts.old).sheet l.effects Committed }
    ensures entry { (l : Flying) → slice_get (state_of parts.old).flight place ≡ Some l → result ≡ entry l.number Committed }
    ensures stuck { parts.new.stuck ≡ false }
    ensures grant { parts.new.grant ≡ parts.old.grant }
{
    let lane = parts.flight.remove(place);
    let actor = target_of(&parts.quads, lane.event);
    let released = lane.effects.commit(&mut parts.quads, actor);
    append_all(
        &parts.quads,
        &mut parts.queue,
        released.first_event,
        released.events,
    );
    enter_all(
        &parts.quads,
        &mut parts.roll,
        released.first_actor,
        released.actors,
    );
    make_idle(&mut parts.quads, released.first_actor, released.actors);
    let entry = Entry {
        message: lane.number,
        outcome: Outcome::Committed,
    };
    note(&mut parts.journal, &entry);
    parts.stuck = false;
    entry
}

// The target of an event that is there.
fn target_of(quads: &Quads, event: Word) -> Word
    requires { (sponsor : W) × (target : W) × (content : W) × (slot_seen (seen quads.now.store) event ≡ Some (EventSlot sponsor target content)) }
    ensures { result ≡ (sent_at (seen quads.now.store) event).target }
{
    quads.known_event(event).target
}
