// One turn.

ghost use Rattle.std.specs.Prelude.{◌≡◌, ◌<◌, ◌≤◌, ◌%◌, Some, length, slice_get, true, false};
ghost use Rattle.cap_words.specs.Seen.{seen};
ghost use Rattle.instr_table.specs.Code.{fetched};
ghost use Rattle.instr_table.specs.Lane.{Lane as Flying};
ghost use Rattle.hum_outside.specs.Outside.{HasCause};
ghost use Rattle.vm_turn.specs.Turn.{step, turn};
ghost use Rattle.vm_turn.specs.Run.{not_rest};
ghost use Rattle.vm_machine.specs.Machine.{turns_by};
ghost use Rattle.vm_machine.specs.Steps.{StepsTo, TakesOne, starts};
ghost use Rattle.vm_machine.specs.Turns.{Takes, Quiet};
ghost use Rattle.vm_machine.specs.View.{state_of};
ghost use Rattle.vm_machine.specs.Whole.{Kept, Waits, Whole};

use crate::exhausted::run_out;
use crate::finish::{commit, fail};
use crate::parts::Parts;
use crate::ready::next_ready;
use crate::start::dispatch;
use cap_words::Word;
use hum_outside::Sink;
use instr_table::Op;
use quad_memory::Quads;
use vm_devices::{Scratch, WriteFault};
use vm_step::{StepEnd, fetch};
use vm_turn::{Outcome, Turn};

// The event at that place takes one instruction, and is still to end where it ends.
fn instruct(parts: &mut Parts, place: usize) -> StepEnd
    requires whole { Whole parts.old }
    requires place { place < length parts.old.flight.items }
    ensures kept { Kept parts.new }
    ensures state { (l : Flying) → slice_get (state_of parts.old).flight place ≡ Some l → StepsTo (state_of parts.old) (state_of parts.new) place l result }
    ensures grant { parts.new.grant ≡ parts.old.grant }
    ensures stuck { parts.new.stuck ≡ parts.old.stuck }
    ensures queue { parts.new.queue ≡ parts.old.queue }
    ensures place { length parts.new.flight.items ≡ length parts.old.flight.items }
{
    vm_step::step(&mut parts.quads, &mut parts.sheet, &mut parts.flight[place])
}

// Whether the instruction at a code word is `sponsor start`, after which messages can go that could not before.
fn starts(quads: &Quads, code: Word) -> bool
    ensures { result ≡ starts (fetched (seen quads.now.store) code) }
{
    matches!(fetch(quads, code), Some((Op::SponsorStart, _)))
}

// Forgets that no message can go where the event at that place is to start a sponsor. While one may go there is nothing to forget.
fn loosen(parts: &mut Parts, place: usize)
    requires whole { Whole parts.old }
    requires place { place < length parts.old.flight.items }
    ensures whole { Whole parts.new }
    ensures state { state_of parts.new ≡ state_of parts.old }
    ensures place { length parts.new.flight.items ≡ length parts.old.flight.items }
    ensures grant { parts.new.grant ≡ parts.old.grant }
    ensures stuck { parts.new.stuck ≡ true → (l : Flying) → slice_get (state_of parts.old).flight place ≡ Some l → starts (fetched (state_of parts.old).store l.code) ≡ false }
{
    let code = parts.flight[place].code;
    if parts.stuck && starts(&parts.quads, code) {
        parts.stuck = false;
    }
}

// The event at that place takes one instruction, and ends where that ends it.
fn take(parts: &mut Parts, place: usize) -> Turn
    requires whole { Whole parts.old }
    requires place { place < length parts.old.flight.items }
    ensures kept { Kept parts.new }
    ensures waits { parts.new.stuck ≡ true → Waits (state_of parts.new) }
    ensures state { (l : Flying) → slice_get (state_of parts.old).flight place ≡ Some l → state_of parts.new ≡ (step (state_of parts.old) place (Some l)).0 }
    ensures turn { (l : Flying) → slice_get (state_of parts.old).flight place ≡ Some l → result ≡ (step (state_of parts.old) place (Some l)).1 }
    ensures grant { parts.new.grant ≡ parts.old.grant }
{
    loosen(parts, place);
    let end = instruct(parts, place);
    match end {
        StepEnd::Going => Turn::Stepped,
        StepEnd::Commit => Turn::Finished(commit(parts, place)),
        StepEnd::Abort(reason) => Turn::Finished(fail(parts, place, Outcome::Failed(reason))),
        StepEnd::RanOut(kind) => run_out(parts, place, kind),
    }
}

// The place that a pick chooses among so many events. Among one, no division is made.
fn chosen(pick: u32, count: usize) -> usize
    requires some { 1 ≤ count }
    ensures { result ≡ pick % count }
{
    if count == 1 {
        return 0;
    }
    pick as usize % count
}

// The event that the pick chooses takes one instruction; where none is in flight the machine is at rest.
fn take_one(parts: &mut Parts, pick: u32) -> Turn
    requires whole { Whole parts.old }
    ensures kept { Kept parts.new }
    ensures waits { parts.new.stuck ≡ true → Waits (state_of parts.new) }
    ensures grant { parts.new.grant ≡ parts.old.grant }
    ensures turn { TakesOne (state_of parts.old) pick (state_of parts.new) result }
    ensures unchanged { not_rest result ≡ false → parts.new ≡ parts.old }
{
    let count = parts.flight.len();
    if count == 0 {
        return Turn::Rest;
    }
    take(parts, chosen(pick, count))
}

// One turn: a message that can go is dispatched, and else an event in flight takes one instruction.
pub(crate) fn turn<K: Sink>(
    parts: &mut Parts,
    scratch: &mut Scratch,
    pick: u32,
    out: &mut K,
) -> Result<Turn, WriteFault>
    requires whole { Whole parts.old }
    ensures whole { Whole parts.new }
    ensures turn { Takes (turn (state_of parts.old) pick) result (state_of parts.old) (state_of parts.new) (K.written out.old) (K.written out.new) }
    ensures quiet { Quiet (turn (state_of parts.old) pick) result (K.written out.old) (K.written out.new) (K.faults out.old) (K.faults out.new) }
    ensures unchanged { turns_by parts.old.out_of result ≡ 0 → parts.new ≡ record parts.old { stuck = parts.new.stuck } }
    ensures cause { HasCause (K.faults out.old) (K.faults out.new) result }
    ensures grant { parts.new.grant ≡ parts.old.grant }
{
    if let Some(kind) = parts.out_of {
        return Ok(Turn::Spent {
            sponsor: parts.known.root,
            kind,
        });
    }
    match next_ready(parts) {
        Some(number) => dispatch(parts, scratch, number, out),
        None => Ok(take_one(parts, pick)),
    }
}
