// What commands leave.
ghost use Rattle.std.specs.Prelude.{◌≡◌, Some, None};
ghost use Rattle.std.specs.Option.{option_copied};

use hum_run::Run;
use vm_machine::Machine;

/// What the last command left.
#[derive(Drop)]
pub struct Record {
    run: Option<Run>,
    machine: Option<Machine>,
}

impl Record {
    /// Nothing was left yet.
    pub fn empty() -> Record
        ensures run { result.run ≡ None }
        ensures machine { result.machine ≡ None }
    {
        Record {
            run: None,
            machine: None,
        }
    }

    /// The run that `run` or `chain` left.
    pub fn run(&self) -> Option<&Run>
        ensures { option_copied result ≡ self.now.run }
    {
        self.run.as_ref()
    }

    /// The machine that `exec` or `debug` left.
    pub fn machine(&self) -> Option<&Machine>
        ensures { option_copied result ≡ self.now.machine }
    {
        self.machine.as_ref()
    }

    /// Leaves a machine.
    pub fn leave_machine(&mut self, machine: Machine)
        ensures { self.new ≡ record self.old { machine = Some machine } }
    {
        self.machine = Some(machine);
    }

    /// Leaves a run.
    pub fn leave_run(&mut self, run: Run)
        ensures { self.new ≡ record self.old { run = Some run } }
    {
        self.run = Some(run);
    }
}
