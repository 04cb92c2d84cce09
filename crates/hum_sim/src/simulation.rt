// A program that runs on the machine.

ghost use Rattle.std.specs.Prelude.{◌≡◌, ◌+◌, ◌≤◌, IfOk};
ghost use Rattle.hum_outside.specs.Outside.{HasCause};
ghost use Rattle.vm_turn.specs.Boot.{booted};
ghost use Rattle.vm_turn.specs.Run.{drawn, drawn_after, pick_of};
ghost use Rattle.vm_turn.specs.Turn.{turn};
ghost use Rattle.vm_machine.specs.Machine.{turns_by};
ghost use Rattle.vm_machine.specs.Turns.{Takes, Quiet};
ghost use Rattle.hum_sim.specs.Sim.{Stands, Completes, KeepsStanding};

use crate::compiling::Compiled;
use hum_outside::Sink;
use std::alloc::{AllocError as NoMemory, Global};
use std::marker::Model;
use vm_devices::WriteFault;
use vm_machine::{Lanes, Machine};
use vm_sponsor::Grant;
use vm_turn::Turn;

/// A program, and the machine that runs its image.
#[derive(Drop)]
pub struct Sim {
    compiled: Compiled,
    machine: Machine,
}

impl Model for Sim {
    ghost use Rattle.std.specs.Coded.{codes};
    ghost use Rattle.hum_syntax.specs.contracts.tree.Stmt as stmt;
    ghost use Rattle.hum_core.specs.contracts.tested.TestUnit as unit;
    ghost use Rattle.hum_sim.specs.Sim.{Sim as Shown, RunsItsImage};

    ghost Value = { Shown };

    ghost coded = { Prim.hlevel (codes, stmt.the_row.coded, unit.the_row.coded) };

    ghost view = { λ s. record { compiled = s.compiled; machine = s.machine } };

    ghost invariant = { λ s. RunsItsImage (record { compiled = s.compiled; machine = s.machine }) };
}

impl Sim {
    /// The machine that the program's image boots to, under a grant. The lanes are from 1 to 64. All memory of the run is taken here.
    pub fn boot(
        alloc: Global,
        compiled: Compiled,
        grant: Grant,
        lanes: Lanes,
    ) -> Result<Sim, NoMemory>
        requires some_lanes { 1 ≤ lanes.count }
        requires lanes_limit { lanes.count ≤ 64 }
        ensures compiled { IfOk result (λ s. s.compiled ≡ compiled) }
        ensures state { IfOk result (λ s. s.machine.state ≡ booted compiled.image grant lanes.count) }
        ensures grant { IfOk result (λ s. s.machine.grant ≡ grant) }
        ensures seed { IfOk result (λ s. s.machine.seed ≡ lanes.seed) }
        ensures turns { IfOk result (λ s. s.machine.turns ≡ 0) }
    {
        let machine = Machine::boot(alloc, compiled.image(), grant, lanes)?;
        Ok(Sim { compiled, machine })
    }

    /// One turn of the machine, as `Machine::turn`. After it the machine stands for the file's configuration after its journal: for the same
    /// one as before, or for the one that the entry makes of it that the turn adds. It runs out only for its cause.
    pub fn turn<K: Sink>(&mut self, out: &mut K) -> Result<Turn, WriteFault>
        ensures turn { Takes (turn self.old.machine.state (pick_of (drawn (drawn_after self.old.machine.seed self.old.machine.turns)))) result self.old.machine.state self.new.machine.state (K.written out.old) (K.written out.new) }
        ensures quiet { Quiet (turn self.old.machine.state (pick_of (drawn (drawn_after self.old.machine.seed self.old.machine.turns)))) result (K.written out.old) (K.written out.new) (K.faults out.old) (K.faults out.new) }
        ensures turns { self.new.machine.turns ≡ self.old.machine.turns + turns_by self.old.machine.state.out_of result }
        ensures unchanged { turns_by self.old.machine.state.out_of result ≡ 0 → self.new.machine ≡ self.old.machine }
        ensures compiled { self.new.compiled ≡ self.old.compiled }
        ensures image { self.new.machine.image ≡ self.old.machine.image }
        ensures grant { self.new.machine.grant ≡ self.old.machine.grant }
        ensures seed { self.new.machine.seed ≡ self.old.machine.seed }
        ensures lanes { self.new.machine.state.lanes ≡ self.old.machine.state.lanes }
        ensures stands { Stands self.new }
        ensures keeps { KeepsStanding self.old self.new }
        ensures completes { self.new.machine.state.lanes ≡ 1 → Completes self.new }
        ensures cause { HasCause (K.faults out.old) (K.faults out.new) result }
    {
        let answer = self.machine.turn(out);
        let _turns = self.machine.turns();
        answer
    }

    /// The program.
    pub fn compiled(&self) -> &Compiled
        ensures { result.now ≡ self.now.compiled }
    {
        &self.compiled
    }

    /// The machine. It runs the program's image, and stands for the file's configuration after its journal.
    pub fn machine(&self) -> &Machine
        ensures value { result.now ≡ self.now.machine }
        ensures image { result.now.image ≡ self.now.compiled.image }
        ensures some_lanes { 1 ≤ result.now.state.lanes }
        ensures lanes_limit { result.now.state.lanes ≤ 64 }
        ensures stands { Stands self.now }
        ensures completes { self.now.machine.state.lanes ≡ 1 → Completes self.now }
    {
        let _turns = self.machine.turns();
        &self.machine
    }
}
