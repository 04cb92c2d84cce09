// What takes turns.
ghost use Rattle.std.specs.Prelude.{◌≡◌, ◌+◌, Option, Some, None};
ghost use Rattle.hum_outside.specs.Outside.{HasCause};
ghost use Rattle.vm_turn.specs.Run.{drawn, drawn_after, pick_of};
ghost use Rattle.vm_turn.specs.Turn.{turn};
ghost use Rattle.vm_machine.specs.Machine.{Machine as AMachine, turns_by};
ghost use Rattle.vm_machine.specs.Turns.{Takes, Quiet};
ghost use Rattle.hum_sim.specs.Compiled.{Compiled as AProgram};

use hum_outside::Sink;
use hum_sim::Sim;
use vm_devices::WriteFault;
use vm_machine::Machine;
use vm_turn::Turn;

/// A machine, alone or with the program whose image it runs.
pub trait Driven {
    /// The machine.
    ghost machine_of: { Self → AMachine };

    /// The program, where there is one.
    ghost program_of: { Self → Option AProgram };

    /// One turn of the machine, as `Machine::turn`. The program is the same after it.
    fn turn<K: Sink>(&mut self, out: &mut K) -> Result<Turn, WriteFault>
        ensures turn { Takes (turn (machine_of self.old).state (pick_of (drawn (drawn_after (machine_of self.old).seed (machine_of self.old).turns)))) result (machine_of self.old).state (machine_of self.new).state (K.written out.old) (K.written out.new) }
        ensures turns { (machine_of self.new).turns ≡ (machine_of self.old).turns + turns_by (machine_of self.old).state.out_of result }
        ensures quiet { Quiet (turn (machine_of self.old).state (pick_of (drawn (drawn_after (machine_of self.old).seed (machine_of self.old).turns)))) result (K.written out.old) (K.written out.new) (K.faults out.old) (K.faults out.new) }
        ensures image { (machine_of self.new).image ≡ (machine_of self.old).image }
        ensures grant { (machine_of self.new).grant ≡ (machine_of self.old).grant }
        ensures seed { (machine_of self.new).seed ≡ (machine_of self.old).seed }
        ensures lanes { (machine_of self.new).state.lanes ≡ (machine_of self.old).state.lanes }
        ensures program { program_of self.new ≡ program_of self.old }
        ensures cause { HasCause (K.faults out.old) (K.faults out.new) result };

    /// The machine.
    fn machine(&self) -> &Machine
        ensures { result.now ≡ machine_of self.now };
}

impl Driven for Machine {
    ghost machine_of = { λ m. m };

    ghost program_of = { λ _. None };

    fn turn<K: Sink>(&mut self, out: &mut K) -> Result<Turn, WriteFault> {
        self.turn(out)
    }

    fn machine(&self) -> &Machine {
        self
    }
}

impl Driven for Sim {
    ghost machine_of = { λ s. s.machine };

    ghost program_of = { λ s. Some s.compiled };

    fn turn<K: Sink>(&mut self, out: &mut K) -> Result<Turn, WriteFault> {
        self.turn(out)
    }

    fn machine(&self) -> &Machine {
        self.machine()
    }
}
