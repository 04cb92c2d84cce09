// The machine of `exec`, and its turns.
ghost use Rattle.std.specs.Prelude.{◌≤◌, ℕ, IfOk};
ghost use Rattle.quad_memory.specs.Image.{RomImage};
ghost use Rattle.vm_sponsor.specs.declared.amounts.Amounts.{Amounts};
ghost use Rattle.hum_run.specs.Drive.{RunsFrom, Fresh, written_by};
ghost use Rattle.hum_command.specs.Writes.{writes};
ghost use Rattle.hum_command.specs.Keys.{WithinLimits};
ghost use Rattle.hum_command.specs.Grants.{grant_of};
ghost use Rattle.hum_command.specs.MachineAnswers.{MachineAnswers};

use crate::answer::Answer;
use crate::ending::end_run;
use crate::keys::Keys;
use hum_outside::Sink;
use hum_run::{drive, report_of};
use quad_memory::Image;
use std::alloc::Global;
use vm_machine::{Machine, NoMemory};

/// The machine that the image boots to, with what the keys grant.
pub fn booted(alloc: Global, image: &Image, keys: Keys) -> Result<Machine, NoMemory>
    requires { WithinLimits keys }
    ensures from { IfOk result (RunsFrom image.now (grant_of keys) keys.lanes keys.seed) }
    ensures fresh { IfOk result Fresh }
{
    Machine::boot(alloc, image, keys.grant(), keys.in_flight())
}

/// Takes the turns of a machine that was booted, and writes the lines of its run.
pub fn run_machine<K: Sink>(
    machine: &mut Machine,
    bound: Option<u32>,
    out: &mut K,
    err: &mut K,
) -> Answer
    requires fresh { Fresh machine.old }
    ensures ends { MachineAnswers result bound machine.new (written_by machine.new)
        (writes K.written K.faults out.old out.new) (writes K.written K.faults err.old err.new) }
    ensures from { (image : RomImage) (grant : Amounts) (lanes seed : ℕ) →
        RunsFrom image grant lanes seed machine.old → RunsFrom image grant lanes seed machine.new }
    ensures out_later { K.faults out.old ≤ K.faults out.new }
    ensures err_later { K.faults err.old ≤ K.faults err.new }
{
    let stop = match drive(machine, bound, out, err) {
        Ok(stop) => stop,
        Err(_) => return Answer::Fault,
    };
    end_run(err, stop, report_of(machine))
}
