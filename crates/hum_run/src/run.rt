// The run of a text.
ghost use Rattle.std.specs.Prelude.{◌≡◌, ◌≤◌, true, false, IfOk, IfErr};
ghost use Rattle.hum_front.specs.Accepted.{Accepted, Fails};
ghost use Rattle.hum_sim.specs.Sim.{Stands, Completes};
ghost use Rattle.hum_run.specs.Drive.{Drives, Breaks, RoseOn, Unreached, RanOutSince, is_reached};
ghost use Rattle.hum_run.specs.Report.{report_of};
ghost use Rattle.hum_run.specs.Run.{IsStart, Halts, is_broken};

use crate::report::{Report, report_of};
use crate::stop::{Stop, WriteFault};
use crate::turns::drive;
use hum_front::StartError;
use hum_outside::Sink;
use hum_sim::{Sim, compile};
use std::alloc::Global;
use vm_machine::Lanes;
use vm_sponsor::Grant;

/// The run of a program: the program with the machine that runs it, and whether a write of the run failed.
#[derive(Drop)]
pub struct Run {
    sim: Sim,
    broken: bool,
}

impl Run {
    /// The run of a text before its first turn, under a grant and with 1 to 64 lanes; else why the text is refused, and where. All memory of
    /// the run is taken here, and a call may answer `NoMemory` whatever the text is.
    pub fn start(alloc: Global, bytes: &[u8], grant: Grant, lanes: Lanes) -> Result<Run, StartError>
        requires some_lanes { 1 ≤ lanes.count }
        requires lanes_limit { lanes.count ≤ 64 }
        ensures accepted { IfOk result (λ run. Accepted bytes.now run.sim.compiled.tree) }
        ensures start { IfOk result (IsStart grant lanes) }
        ensures fails { IfErr result (Fails bytes.now) }
    {
        let compiled = match compile(alloc, bytes) {
            Ok(compiled) => compiled,
            Err(refused) => return Err(refused),
        };
        let Ok(sim) = Sim::boot(alloc, compiled, grant, lanes) else {
            return Err(StartError::NoMemory);
        };
        let _machine = sim.machine();
        Ok(Run { sim, broken: false })
    }

    /// Takes turns until no message is pending, the root sponsor has run out or the bound's number of events is finished and a message is
    /// pending, and writes the line of each event that failed to `err`. It may be called again after each of these. Before each turn it is
    /// tested whether the root has run out, and then the bound: there it takes none. It takes no memory.
    ///
    /// `WriteFault` comes only where the count of that sink rose. Where `out` failed, the event is unfinished, and a front of what it writes
    /// was written; where `err` failed, it is finished, and a front of its line was written. After a `WriteFault` each call answers `Broken`
    /// and changes nothing.
    pub fn advance<K: Sink>(
        &mut self,
        bound: Option<u32>,
        out: &mut K,
        err: &mut K,
    ) -> Result<Stop, WriteFault>
        ensures halts { IfOk result (λ stop. Halts self.old.broken bound stop self.new.sim.machine) }
        ensures marks { self.new.broken ≡ is_broken result }
        ensures unchanged { self.old.broken ≡ true → self.new ≡ self.old }
        ensures unwritten { self.old.broken ≡ true → (out.new ≡ out.old) × (err.new ≡ err.old) }
        ensures drives { IfOk result (λ stop. Drives self.old.sim.machine self.new.sim.machine (K.written out.old) (K.written out.new) (K.written err.old) (K.written err.new)) }
        ensures unreached { Unreached bound self.old.sim.machine.turns self.new.sim.machine }
        ensures ran_out { IfOk result (λ stop. RanOutSince self.old.sim.machine.state.out_of self.new.sim.machine) }
        ensures breaks { IfErr result (λ fault. Breaks fault.on_err self.old.sim.machine self.new.sim.machine (K.written out.old) (K.written out.new) (K.written err.old) (K.written err.new)) }
        ensures rose { IfErr result (λ fault. RoseOn fault.on_err (K.faults out.old) (K.faults out.new) (K.faults err.old) (K.faults err.new)) }
        ensures unreached_now { IfErr result (λ fault. fault.on_err ≡ false → is_reached bound self.new.sim.machine.state ≡ false) }
        ensures unbroken { IfErr result (λ fault. self.old.broken ≡ false) }
        ensures compiled { self.new.sim.compiled ≡ self.old.sim.compiled }
        ensures stands { Stands self.new.sim }
        ensures completes { self.new.sim.machine.state.lanes ≡ 1 → Completes self.new.sim }
        ensures out_later { K.faults out.old ≤ K.faults out.new }
        ensures err_later { K.faults err.old ≤ K.faults err.new }
    {
        let _turns = self.sim.machine().turns();
        if self.broken {
            return Ok(Stop::Broken);
        }
        let answer = drive(&mut self.sim, bound, out, err);
        self.broken = answer.is_err();
        let _machine = self.sim.machine();
        answer
    }

    /// The program and the machine that runs it.
    pub fn sim(&self) -> &Sim
        ensures { result.now ≡ self.now.sim }
    {
        &self.sim
    }

    /// What the run's events came to so far: each that is finished is committed, failed or spent.
    pub fn report(&self) -> Report
        ensures { result ≡ report_of self.now.sim.machine.state }
    {
        report_of(self.sim.machine())
    }
}
