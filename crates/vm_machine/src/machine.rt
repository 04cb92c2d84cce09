// A machine whose picks a seed draws.

ghost use Rattle.std.specs.Prelude.{◌≡◌, ◌+◌, ◌*◌, ◌≤◌, ◌<◌, ◌^◌, length, slice_get, IfOk, IsSome, IsTrue, true, false};
ghost use Rattle.cap_words.specs.Store.{Store};
ghost use Rattle.cap_words.specs.Seen.{seen};
ghost use Rattle.hum_outside.specs.Outside.{HasCause};
ghost use Rattle.quad_memory.specs.Image.{is_image};
ghost use Rattle.instr_table.specs.Sheet.{held};
ghost use Rattle.instr_table.specs.Lane.{Lane as Flying};
ghost use Rattle.instr_table.specs.Reach.{Every};
ghost use Rattle.vm_sponsor.specs.Grant.{is_grant};
ghost use Rattle.vm_sponsor.specs.Sheets.{Belongs};
ghost use Rattle.event_queue.specs.Pending.{IsAscending};
ghost use Rattle.vm_step.specs.Step.{sheet_in};
ghost use Rattle.vm_turn.specs.State.{root};
ghost use Rattle.vm_turn.specs.Boot.{booted};
ghost use Rattle.vm_turn.specs.Run.{drawn, drawn_after, pick_of, not_rest, unless_out};
ghost use Rattle.vm_turn.specs.Turn.{is_in_flight, turn};
ghost use Rattle.vm_machine.specs.Flight.{flight_of};
ghost use Rattle.vm_machine.specs.Machine.{drawn_run, turns_by};
ghost use Rattle.vm_machine.specs.Messages.{is_among, unfinished};
ghost use Rattle.vm_machine.specs.Turns.{Takes, Quiet};

use crate::NoMemory;
use crate::boot::boot;
use crate::parts::Parts;
use crate::turn::turn;
use cap_words::Word;
use event_queue::Queue;
use hum_outside::Sink;
use instr_table::Quota;
use quad_memory::{Image, Quads};
use std::alloc::Global;
use std::marker::Model;
use vm_devices::{Scratch, WriteFault};
use vm_sponsor::{Grant, Sheet};
use vm_step::Lane;
use vm_turn::{Entry, Turn};

/// How many events may be in flight, 1 to 64, and the seed that says which of them takes an instruction.
#[derive(Clone, Copy, Debug, PartialEq, Eq)]
pub struct Lanes {
    pub count: u32,
    pub seed: u32,
}

/// A machine that draws its picks from a seed. Its state is that of the written run of its image, grant and lanes over the first picks of
/// its seed, one for each turn that it completed; what was written does not stand in it.
#[derive(Drop)]
pub struct Machine {
    parts: Parts,
    scratch: Scratch,
    boot: Word,
    seed: u32,
    // The generator's number after the turns.
    drawn: u32,
    turns: u64,
}

impl Model for Machine {
    ghost use Rattle.vm_machine.specs.Machine.{Machine as Shown, Follows, image_of};
    ghost use Rattle.vm_machine.specs.View.{state_of};
    ghost use Rattle.vm_machine.specs.Whole.{Whole};

    ghost Value = { Shown };

    ghost view = { λ m. record {
      state = state_of m.parts;
      image = image_of m.parts m.boot;
      grant = m.parts.grant;
      seed = m.seed;
      turns = m.turns;
      quads = m.parts.quads;
      sheet = m.parts.sheet;
      queue = m.parts.queue;
    } };

    ghost invariant = { λ m. Whole m.parts × Follows m.parts m.boot m.seed m.drawn m.turns };
}

// The generator's next number.
fn next_drawn(x: u32) -> u32
    ensures { result ≡ drawn x }
{
    ((1_664_525 * x as u64 + 1_013_904_223) % 4_294_967_296) as u32
}

// Whether a turn with that answer was completed, where the root sponsor had run out of that before.
fn is_completed(out_of: Option<Quota>, answer: &Turn) -> bool
    ensures { result ≡ unless_out out_of (not_rest answer.now) }
{
    match out_of {
        Some(_) => false,
        None => !matches!(answer, Turn::Rest),
    }
}

// Whether a lane has the message with that number.
fn flies(flight: &[Lane], number: u32) -> bool
    ensures { (s : Store) → result ≡ is_in_flight number (flight_of s flight.now) }
{
    match flight {
        [] => false,
        [lane, more @ ..] => lane.number == number || flies(more, number),
    }
}

impl Machine {
    /// The machine that the image boots to, under a grant. The lanes are from 1 to 64. All memory is taken here: no turn takes any.
    pub fn boot(
        alloc: Global,
        image: &Image,
        grant: Grant,
        lanes: Lanes,
    ) -> Result<Machine, NoMemory>
        requires some_lanes { 1 ≤ lanes.count }
        requires lanes_limit { lanes.count ≤ 64 }
        ensures state { IfOk result (λ m. m.state ≡ booted image.now grant lanes.count) }
        ensures image { IfOk result (λ m. m.image ≡ image.now) }
        ensures grant { IfOk result (λ m. m.grant ≡ grant) }
        ensures seed { IfOk result (λ m. m.seed ≡ lanes.seed) }
        ensures turns { IfOk result (λ m. m.turns ≡ 0) }
        ensures room { IfOk result (λ m. m.quads.room ≡ grant.memory + 16) }
    {
        let parts = boot(alloc, image, grant, lanes.count)?;
        let scratch = Scratch::new(alloc)?;
        Ok(Machine {
            parts,
            scratch,
            boot: image.boot(),
            seed: lanes.seed,
            drawn: lanes.seed,
            turns: 0,
        })
    }

    /// One turn, over the next pick of the seed. A call that finds the machine at rest, or its root run out, or a write that fails draws
    /// none: the next call draws the same, and nothing of the machine has changed. A turn that writes nothing cannot fail.
    pub fn turn<K: Sink>(&mut self, out: &mut K) -> Result<Turn, WriteFault>
        ensures turn { Takes (turn self.old.state (pick_of (drawn (drawn_after self.old.seed self.old.turns)))) result self.old.state self.new.state (K.written out.old) (K.written out.new) }
        ensures quiet { Quiet (turn self.old.state (pick_of (drawn (drawn_after self.old.seed self.old.turns)))) result (K.written out.old) (K.written out.new) (K.faults out.old) (K.faults out.new) }
        ensures turns { self.new.turns ≡ self.old.turns + turns_by self.old.state.out_of result }
        ensures unchanged { turns_by self.old.state.out_of result ≡ 0 → self.new ≡ self.old }
        ensures image { self.new.image ≡ self.old.image }
        ensures grant { self.new.grant ≡ self.old.grant }
        ensures seed { self.new.seed ≡ self.old.seed }
        ensures lanes { self.new.state.lanes ≡ self.old.state.lanes }
        ensures cause { HasCause (K.faults out.old) (K.faults out.new) result }
    {
        let out_of = self.parts.out_of;
        let next = next_drawn(self.drawn);
        let answer = turn(&mut self.parts, &mut self.scratch, next / 65_536, out)?;
        if !is_completed(out_of, &answer) {
            return Ok(answer);
        }
        self.turns += 1;
        self.drawn = next;
        Ok(answer)
    }

    /// How many turns were completed. The state is the written run's after so many, over the picks of the seed, and there are never more
    /// than the cycles and twice the messages that were granted, message 0 among these. The image of that run keeps its rules, as the laws on
    /// authority ask, its grant is within the limits, and its lanes are 1 to 64.
    pub fn turns(&self) -> u64
        ensures value { result ≡ self.now.turns }
        ensures image { IsTrue (is_image self.now.image.boot self.now.image.cells) }
        ensures grant { IsTrue (is_grant self.now.grant.memory self.now.grant.events self.now.grant.cycles) }
        ensures some_lanes { 1 ≤ self.now.state.lanes }
        ensures lanes_limit { self.now.state.lanes ≤ 64 }
        ensures run { self.now.state ≡ drawn_run self.now.image self.now.grant self.now.state.lanes self.now.seed result }
        ensures bound { result ≤ self.now.grant.cycles + 2 * (self.now.grant.events + 1) }
    {
        self.turns
    }

    /// What the root sponsor ran out of, if it did: no turn is taken after that.
    pub fn ran_out(&self) -> Option<Quota>
        ensures { result ≡ self.now.state.out_of }
    {
        self.parts.out_of
    }

    /// What the root sponsor holds of a kind.
    pub fn root_holds(&self, kind: Quota) -> u32
        ensures { result ≡ held self.now.state.sheet root kind }
    {
        self.parts
            .sheet
            .held(&self.parts.quads, self.parts.known.root, kind)
    }

    /// The entries of the events that ended, in order.
    pub fn journal(&self) -> &[Entry]
        ensures value { result.now ≡ self.now.state.journal }
        ensures few { length result.now < 2 ^ 32 }
    {
        &self.parts.journal
    }

    /// How many messages are not finished; those in flight are among them.
    pub fn pending(&self) -> u32
        ensures { result ≡ length self.now.state.messages }
    {
        self.parts.queue.given() - self.parts.journal.len() as u32
    }

    /// The sponsors with their amounts.
    pub fn sheet(&self) -> &Sheet
        ensures value { result.now ≡ self.now.sheet }
        ensures sheet { sheet_in self.now.quads result.now ≡ self.now.state.sheet }
        ensures belongs { Belongs self.now.quads.store result.now }
    {
        &self.parts.sheet
    }

    /// The quads.
    pub fn quads(&self) -> &Quads
        ensures value { result.now ≡ self.now.quads }
        ensures seen { seen result.now.store ≡ self.now.state.store }
    {
        &self.parts.quads
    }

    /// The messages that were given, and which of them are ready: those that are not finished and not in flight.
    pub fn queue(&self) -> &Queue
        ensures value { result.now ≡ self.now.queue }
        ensures messages { unfinished result.now.given result.now.ready self.now.state.flight ≡ self.now.state.messages }
        ensures ready { Every (λ (l : Flying). is_among l.number result.now.ready ≡ false) self.now.state.flight }
        ensures ascending { IsAscending 0 (length result.now.given) result.now.ready }
    {
        &self.parts.queue
    }

    /// The committed actor with that number, or None beyond the last: 0 is the first actor, 1 `println`, 2 `say`, and then come those that
    /// events created, in the order of their commits, and of one commit in the order of creation.
    pub fn actor_at(&self, n: u32) -> Option<Word>
        ensures { result ≡ slice_get self.now.state.roll n }
    {
        self.parts.roll.get(n as usize).copied()
    }

    /// Whether the message with that number is in flight.
    pub fn in_flight(&self, number: u32) -> bool
        ensures { result ≡ is_in_flight number self.now.state.flight }
    {
        flies(&self.parts.flight, number)
    }
}
