// What a run's events came to.
ghost use Rattle.std.specs.Prelude.{◌≡◌, ◌+◌};
ghost use Rattle.hum_run.specs.Report as spec;

use vm_machine::Machine;
use vm_turn::{Entry, Outcome};

/// How many events are finished, and of them committed, failed and spent; and how many messages are pending.
#[derive(Clone, Copy, Debug, PartialEq, Eq)]
pub struct Report {
    pub finished: u32,
    pub committed: u32,
    pub failed: u32,
    pub spent: u32,
    pub pending: u32,
}

// How many entries are of events that committed.
fn count_committed(journal: &[Entry]) -> usize
    ensures { result ≡ spec.count_of spec.is_committed journal.now }
{
    journal
        .iter()
        .filter(|entry| matches!(entry.outcome, Outcome::Committed))
        .count()
}

// How many entries are of events that failed.
fn count_failed(journal: &[Entry]) -> usize
    ensures { result ≡ spec.count_of spec.is_failed journal.now }
{
    journal
        .iter()
        .filter(|entry| matches!(entry.outcome, Outcome::Failed(_)))
        .count()
}

// How many entries are of events whose sponsor ran out.
fn count_ran_out(journal: &[Entry]) -> usize
    ensures { result ≡ spec.count_of spec.is_ran_out journal.now }
{
    journal
        .iter()
        .filter(|entry| matches!(entry.outcome, Outcome::RanOut(_)))
        .count()
}

/// What the machine's events came to: each that is finished is committed, failed or spent.
pub fn report_of(machine: &Machine) -> Report
    ensures value { result ≡ spec.report_of machine.now.state }
    ensures finished { result.finished ≡ result.committed + result.failed + result.spent }
{
    let journal = machine.journal();
    Report {
        finished: journal.len() as u32,
        committed: count_committed(journal) as u32,
        failed: count_failed(journal) as u32,
        spent: count_ran_out(journal) as u32,
        pending: machine.pending(),
    }
}
