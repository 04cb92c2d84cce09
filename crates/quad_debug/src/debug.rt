// A machine that obeys commands.

ghost use Rattle.std.specs.Prelude.{◌≡◌, ◌||◌, nat_eq, not, length, OnErr, OnOk, IfOk};
ghost use Rattle.hum_outside.specs.Outside.{HasCause, AppendsFront, appended};
ghost use Rattle.circular_buffer.specs.Buffer.{keep_last};
ghost use Rattle.quad_debug.specs.Texts.{event_lines};
ghost use Rattle.quad_debug.specs.Obeys as spec;
ghost use Rattle.quad_debug.specs.Parts as parts;
ghost use Rattle.quad_debug.specs.declared.command.Command.TheVariants.{Step, Event, Show, Queue, Sheet, Back};

use crate::NoMemory;
use crate::command::{Command, Place};
use crate::lines::{put_cell, put_events, put_queue, put_turns};
use crate::rest::put_ending;
use crate::sheet::put_sheet;
use crate::wait::{Wait, entries_from, is_begun, is_over};
use cap_words::Quad;
use circular_buffer::HeapCircularBuffer;
use hum_outside::{Failed, Sink};
use std::alloc::Global;
use std::marker::Model;
use vm_devices::WriteFault;
use vm_machine::Machine;
use vm_turn::Entry;

// So many entries are kept.
const MOST_KEPT: usize = 64;

/// A machine that obeys commands. It keeps the last 64 entries that its journal got since the start, in order.
#[derive(Drop)]
pub struct Debug {
    machine: Machine,
    // How many entries the machine had at the start.
    began: usize,
    entries: HeapCircularBuffer<Entry, Global>,
}

impl Model for Debug {
    ghost use Rattle.quad_debug.specs.Kept.{Debugged, Keeps};

    ghost Value = { Debugged };

    ghost view = { λ d. record { machine = d.machine; began = d.began } };

    ghost invariant = { λ d. Keeps d.machine d.began d.entries };
}

// Writes the lines of the last so many entries.
fn put_last<K: Sink>(
    out: &mut K,
    entries: &HeapCircularBuffer<Entry, Global>,
    count: u32,
) -> Result<(), Failed>
    ensures all { OnOk result (K.written out.new ≡ appended (K.written out.old) (event_lines (keep_last count entries.now.items))) }
    ensures front { OnErr result (AppendsFront (K.written out.old) (K.written out.new) (event_lines (keep_last count entries.now.items))) }
    ensures cause { HasCause (K.faults out.old) (K.faults out.new) result }
{
    let (earlier, later) = entries.as_slices();
    let left_out = (earlier.len() + later.len()).saturating_sub(count as usize);
    if left_out > earlier.len() {
        let last = entries_from(later, left_out - earlier.len());
        return put_events(out, last);
    }
    put_events(out, entries_from(earlier, left_out))?;
    put_events(out, later)
}

// How many turns a machine completed. What it is seen to hold is its state, which is that of its run.
fn turns_of(machine: &Machine) -> u64
    ensures value { result ≡ machine.now.turns }
    ensures stands { parts.Stands machine.now }
{
    let _quads = machine.quads();
    let _sheet = machine.sheet();
    machine.turns()
}

// Whether it is told that a machine is at rest: where no turn was taken, or what was waited for did not come.
fn is_rest_told(before: u64, now: u64, met: bool) -> bool
    ensures { result ≡ (nat_eq now before || not met) }
{
    now == before || !met
}

impl Debug {
    /// A debugger of that machine, which goes on from where it is. No entry is kept yet.
    pub fn start(alloc: Global, machine: Machine) -> Result<Debug, NoMemory>
        ensures machine { IfOk result (λ d. d.machine ≡ machine) }
        ensures memory { spec.HoldsState machine }
        ensures began { IfOk result (λ d. d.began ≡ length machine.state.journal) }
    {
        let _turns = turns_of(&machine);
        let began = machine.journal().len();
        let entries = HeapCircularBuffer::with_capacity(alloc, MOST_KEPT)?;
        Ok(Debug {
            machine,
            began,
            entries,
        })
    }

    /// The machine as it stands.
    pub fn end(self) -> Machine
        ensures { result ≡ self.machine }
    {
        self.machine
    }

    /// The words of a cell, whatever it was taken for, or None where the place has none.
    pub fn show(&self, place: Place) -> Option<Quad>
        ensures { result ≡ spec.cell_at self.now.machine.quads place }
    {
        let quads = self.machine.quads();
        match place {
            Place::Rom(number) => quads.rom_at(number),
            Place::Ram(number) => quads.ram_at(number),
        }
    }

    /// Does what the command says, and writes its lines. It takes no memory.
    ///
    /// `WriteFault` comes only where the sink's count of faults rose. A front of the command's text was written then, and the machine is
    /// after the turns that were completed; a later call goes on from there.
    pub fn obey<K: Sink>(&mut self, command: Command, out: &mut K) -> Result<(), WriteFault>
        ensures obeys { OnOk result (spec.Obeys command self.old self.new (K.written out.old) (K.written out.new)) }
        ensures breaks { OnErr result (spec.BreaksOff command self.old self.new (K.written out.old) (K.written out.new)) }
        ensures cause { HasCause (K.faults out.old) (K.faults out.new) result }
    {
        match command {
            Command::Step(count) => self.step(count, out),
            Command::Event(count) => self.event(count, out),
            Command::BreakAt(message) => self.wait_for(Wait::Message(message), out),
            Command::Show(place) => self.tell_cell(place, out),
            Command::Queue => self.tell_queue(out),
            Command::Sheet => self.tell_sheet(out),
            Command::Back(count) => self.tell_back(count, out),
        }
    }

    fn machine(&self) -> &Machine
        ensures { result.now ≡ self.now.machine }
    {
        &self.machine
    }

    // Writes a cell.
    fn tell_cell<K: Sink>(&self, place: Place, out: &mut K) -> Result<(), WriteFault>
        ensures obeys { OnOk result (spec.Obeys (Show place) self.now self.now (K.written out.old) (K.written out.new)) }
        ensures breaks { OnErr result (spec.BreaksOff (Show place) self.now self.now (K.written out.old) (K.written out.new)) }
        ensures cause { HasCause (K.faults out.old) (K.faults out.new) result }
    {
        let _turns = turns_of(self.machine());
        Ok(put_cell(out, place, self.show(place))?)
    }

    // Writes the ready messages.
    fn tell_queue<K: Sink>(&self, out: &mut K) -> Result<(), WriteFault>
        ensures obeys { OnOk result (spec.Obeys Queue self.now self.now (K.written out.old) (K.written out.new)) }
        ensures breaks { OnErr result (spec.BreaksOff Queue self.now self.now (K.written out.old) (K.written out.new)) }
        ensures cause { HasCause (K.faults out.old) (K.faults out.new) result }
    {
        let _turns = turns_of(self.machine());
        Ok(put_queue(out, self.machine().queue())?)
    }

    // Writes the sponsors.
    fn tell_sheet<K: Sink>(&self, out: &mut K) -> Result<(), WriteFault>
        ensures obeys { OnOk result (spec.Obeys Sheet self.now self.now (K.written out.old) (K.written out.new)) }
        ensures breaks { OnErr result (spec.BreaksOff Sheet self.now self.now (K.written out.old) (K.written out.new)) }
        ensures cause { HasCause (K.faults out.old) (K.faults out.new) result }
    {
        let _turns = turns_of(self.machine());
        Ok(put_sheet(out, self.machine())?)
    }

    // Writes so many of the last entries.
    fn tell_back<K: Sink>(&self, count: u32, out: &mut K) -> Result<(), WriteFault>
        ensures obeys { OnOk result (spec.Obeys (Back count) self.now self.now (K.written out.old) (K.written out.new)) }
        ensures breaks { OnErr result (spec.BreaksOff (Back count) self.now self.now (K.written out.old) (K.written out.new)) }
        ensures cause { HasCause (K.faults out.old) (K.faults out.new) result }
    {
        let _turns = turns_of(&self.machine);
        Ok(put_last(out, &self.entries, count)?)
    }

    // Takes a turn, if there is one, and keeps the entry that it adds.
    fn turn<K: Sink>(&mut self, out: &mut K) -> Result<bool, WriteFault>
        ensures turns { IfOk result (λ more. parts.TookTurn self.old self.new (K.written out.old) (K.written out.new) more) }
        ensures breaks { OnErr result (parts.BrokeTurn self.old self.new (K.written out.old) (K.written out.new)) }
        ensures cause { HasCause (K.faults out.old) (K.faults out.new) result }
    {
        let turns = turns_of(&self.machine);
        let ended = self.machine.journal().len();
        let _answer = self.machine.turn(out)?;
        let now = turns_of(&self.machine);
        let added = entries_from(self.machine.journal(), ended);
        self.entries.extend_from_slice(added);
        Ok(now > turns)
    }

    // Takes so many turns, or fewer where there are no more.
    fn take<K: Sink>(&mut self, count: u32, out: &mut K) -> Result<(), WriteFault>
        ensures runs { OnOk result (parts.Steps count self.old self.new (K.written out.old) (K.written out.new)) }
        ensures breaks { OnErr result (parts.BreaksSteps count self.old self.new (K.written out.old) (K.written out.new)) }
        ensures cause { HasCause (K.faults out.old) (K.faults out.new) result }
    {
        let _turns = turns_of(self.machine());
        'turns: for _taken in 0..count {
            if !self.turn(out)? {
                return Ok(());
            }
        }
        Ok(())
    }

    // Takes turns until what is waited for has come, and writes the lines of the events that end. Says whether it has come; where it has
    // not, there is no further turn.
    fn walk<K: Sink>(&mut self, wait: Wait, out: &mut K) -> Result<bool, WriteFault>
        ensures runs { OnOk result (parts.Walks wait self.old self.new (K.written out.old) (K.written out.new)) }
        ensures met { IfOk result (λ met. met ≡ spec.is_met wait self.new.machine.state) }
        ensures breaks { OnErr result (parts.BreaksWalk wait self.old self.new (K.written out.old) (K.written out.new)) }
        ensures cause { HasCause (K.faults out.old) (K.faults out.new) result }
    {
        let _turns = turns_of(self.machine());
        let mut over = is_over(wait, self.machine().journal(), 0);
        'turns: loop {
            if over || is_begun(wait, self.machine()) {
                return Ok(true);
            }
            let ended = self.machine().journal().len();
            if !self.turn(out)? {
                return Ok(false);
            }
            let _turns = self.machine().turns();
            let journal = self.machine().journal();
            put_events(out, entries_from(journal, ended))?;
            over = is_over(wait, journal, ended);
        }
    }

    // Takes turns until what is waited for has come, and writes how that ended.
    fn wait_for<K: Sink>(&mut self, wait: Wait, out: &mut K) -> Result<(), WriteFault>
        ensures waits { OnOk result (parts.Waits wait self.old self.new (K.written out.old) (K.written out.new)) }
        ensures breaks { OnErr result (parts.BreaksWait wait self.old self.new (K.written out.old) (K.written out.new)) }
        ensures cause { HasCause (K.faults out.old) (K.faults out.new) result }
    {
        let turns = self.machine().turns();
        let met = self.walk(wait, out)?;
        let rests = is_rest_told(turns, self.machine().turns(), met);
        Ok(put_ending(out, self.machine(), wait, rests)?)
    }

    // Waits for so many more entries.
    fn event<K: Sink>(&mut self, count: u32, out: &mut K) -> Result<(), WriteFault>
        ensures obeys { OnOk result (spec.Obeys (Event count) self.old self.new (K.written out.old) (K.written out.new)) }
        ensures breaks { OnErr result (spec.BreaksOff (Event count) self.old self.new (K.written out.old) (K.written out.new)) }
        ensures cause { HasCause (K.faults out.old) (K.faults out.new) result }
    {
        let entries = self.machine().journal().len() + count as usize;
        self.wait_for(Wait::Entries(entries), out)
    }

    // Takes so many turns, or fewer where there are no more, and writes how many are completed.
    fn step<K: Sink>(&mut self, count: u32, out: &mut K) -> Result<(), WriteFault>
        ensures obeys { OnOk result (spec.Obeys (Step count) self.old self.new (K.written out.old) (K.written out.new)) }
        ensures breaks { OnErr result (spec.BreaksOff (Step count) self.old self.new (K.written out.old) (K.written out.new)) }
        ensures cause { HasCause (K.faults out.old) (K.faults out.new) result }
    {
        self.take(count, out)?;
        Ok(put_turns(out, self.machine().turns())?)
    }
}
