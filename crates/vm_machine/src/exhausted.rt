// Events whose sponsor held too little.

ghost use Rattle.std.specs.Prelude.{◌≡◌, ◌<◌, Some, None, false, pos, length, option_map, slice_get, [], ◌∷◌};
ghost use Rattle.cap_words.specs.Words.{W, Fix, same_word};
ghost use Rattle.cap_words.specs.Seen.{EventSlot, seen, slot_seen};
ghost use Rattle.cap_words.specs.Frame.{Among, Framed};
ghost use Rattle.quad_memory.specs.Cells.{event_at};
ghost use Rattle.instr_table.specs.Lane.{Lane as Flying};
ghost use Rattle.instr_table.specs.Reach.{Every};
ghost use Rattle.instr_table.specs.Sheet.{prepared, stop};
ghost use Rattle.vm_sponsor.specs.Ledger.{names};
ghost use Rattle.vm_turn.specs.declared.journal.Outcome.TheVariants.{RanOut};
ghost use Rattle.vm_turn.specs.State.{root};
ghost use Rattle.vm_turn.specs.Actors.{sent_at, with_content};
ghost use Rattle.vm_turn.specs.Turn.{entry, out_by, released, run_out, signal_number, spent_by};
ghost use Rattle.vm_turn.specs.Sound.{message_words, sent_by};
ghost use Rattle.vm_machine.specs.View.{state_of};
ghost use Rattle.vm_machine.specs.Whole.{Kept, Whole};

use crate::finish::fail;
use crate::parts::Parts;
use cap_words::{Word, is_same};
use instr_table::Quota;
use quad_memory::{EventCell, Quads};
use vm_turn::{Entry, Outcome, Turn};

// Stops a sponsor and gives the signal that it had prepared.
fn stop(parts: &mut Parts, who: Word) -> Option<Word>
    requires kept { Kept parts.old }
    requires who { Among who (names parts.old.sheet.rows) }
    ensures kept { Kept parts.new }
    ensures state { state_of parts.new ≡ record (state_of parts.old) { sheet = stop (state_of parts.old).sheet who } }
    ensures signal { result ≡ prepared (state_of parts.old).sheet who }
    ensures grant { parts.new.grant ≡ parts.old.grant }
    ensures queue { parts.new.queue ≡ parts.old.queue }
    ensures place { length parts.new.flight.items ≡ length parts.old.flight.items }
{
    parts.stuck = false;
    parts.sheet.stop(&mut parts.quads, who)
}

// Gives the event that a word names, if it names one, another content.
fn fill(quads: &mut Quads, event: Word, content: Word)
    ensures seen { seen quads.new.store ≡ with_content (seen quads.old.store) event content }
    ensures frame { Framed quads.old.store quads.new.store (event ∷ []) }
    ensures absent { event_at quads.old.store event ≡ None → quads.new ≡ quads.old }
    ensures room { quads.new.room ≡ quads.old.room }
{
    if let Some(cell) = quads.event(event) {
        quads.set_event(
            event,
            EventCell {
                message: content,
                ..cell
            },
        );
    }
}

// What a signal of that kind says.
fn signal_word(kind: Quota) -> Word
    ensures { result ≡ Fix (pos (signal_number kind)) }
{
    match kind {
        Quota::Memory => Word::number_word(1),
        Quota::Events => Word::number_word(2),
        Quota::Cycles => Word::number_word(3),
    }
}

// A signal that was prepared becomes the next message.
fn release(parts: &mut Parts, signal: Word, kind: Quota)
    requires kept { Kept parts.old }
    requires room { length parts.old.queue.given < parts.old.queue.room }
    requires no_message { Among signal (message_words (state_of parts.old).messages) → ⊥ }
    requires not_sent { Every (λ (l : Flying). Among signal (sent_by l) → ⊥) (state_of parts.old).flight }
    ensures kept { Kept parts.new }
    ensures state { state_of parts.new ≡ released (Some signal) kind (state_of parts.old) }
    ensures stuck { parts.new.stuck ≡ false }
    ensures grant { parts.new.grant ≡ parts.old.grant }
{
    fill(&mut parts.quads, signal, signal_word(kind));
    let _number = parts.queue.append(signal);
    parts.stuck = false;
}

// So does one that there may be.
fn release_any(parts: &mut Parts, signal: Option<Word>, kind: Quota)
    requires kept { Kept parts.old }
    requires room { (w : W) → signal ≡ Some w → length parts.old.queue.given < parts.old.queue.room }
    requires no_message { (w : W) → signal ≡ Some w → Among w (message_words (state_of parts.old).messages) → ⊥ }
    requires not_sent { (w : W) → signal ≡ Some w → Every (λ (l : Flying). Among w (sent_by l) → ⊥) (state_of parts.old).flight }
    ensures kept { Kept parts.new }
    ensures state { state_of parts.new ≡ released signal kind (state_of parts.old) }
    ensures stuck { parts.old.stuck ≡ false → parts.new.stuck ≡ false }
    ensures grant { parts.new.grant ≡ parts.old.grant }
{
    if let Some(event) = signal {
        release(parts, event, kind);
    }
}

// The event at that place ends since its sponsor held too little: the sponsor is stopped, and its signal becomes a message. Where the
// sponsor is the root the machine is spent.
pub(crate) fn run_out(parts: &mut Parts, place: usize, kind: Quota) -> Turn
    requires whole { Whole parts.old }
    requires place { place < length parts.old.flight.items }
    ensures kept { Kept parts.new }
    ensures state { (l : Flying) → slice_get (state_of parts.old).flight place ≡ Some l → state_of parts.new ≡ out_by (same_word l.own.sponsor root) kind (run_out (state_of parts.old) place l kind) }
    ensures turn { (l : Flying) → slice_get (state_of parts.old).flight place ≡ Some l → result ≡ spent_by (same_word l.own.sponsor root) kind (entry l.number (RanOut kind)) }
    ensures stuck { parts.new.stuck ≡ false }
    ensures grant { parts.new.grant ≡ parts.old.grant }
{
    let event = parts.flight[place].event;
    let who = payer_of(&parts.quads, event);
    let signal = stop(parts, who);
    let entry = fail(parts, place, Outcome::RanOut(kind));
    release_any(parts, signal, kind);
    end_run(parts, who, kind, entry)
}

// Where the sponsor that ran out is the root the machine is spent.
fn end_run(parts: &mut Parts, who: Word, kind: Quota, entry: Entry) -> Turn
    requires kept { Kept parts.old }
    ensures kept { Kept parts.new }
    ensures state { state_of parts.new ≡ out_by (same_word who root) kind (state_of parts.old) }
    ensures turn { result ≡ spent_by (same_word who root) kind entry }
    ensures stuck { parts.new.stuck ≡ parts.old.stuck }
    ensures grant { parts.new.grant ≡ parts.old.grant }
{
    let root = parts.known.root;
    if is_same(who, root) {
        parts.out_of = Some(kind);
        return Turn::Spent {
            sponsor: root,
            kind,
        };
    }
    Turn::Finished(entry)
}

// The sponsor of an event that is there.
fn payer_of(quads: &Quads, event: Word) -> Word
    requires { (sponsor : W) × (target : W) × (content : W) × (slot_seen (seen quads.now.store) event ≡ Some (EventSlot sponsor target content)) }
    ensures { result ≡ (sent_at (seen quads.now.store) event).sponsor }
{
    quads.known_event(event).sponsor
}
