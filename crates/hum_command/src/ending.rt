// The end of a run: its lines on err, and its answer.
ghost use Rattle.std.specs.Prelude.{◌≡◌, ◌≤◌, OnOk, OnErr};
ghost use Rattle.hum_outside.specs.Outside.{HasCause, AppendsFront, appended};
ghost use Rattle.hum_command.specs.Ending.{kind_name, spent_line, counts_line, ending, AnswersTo, EndsSo};
ghost use Rattle.hum_command.specs.Writes.{writes};

use crate::answer::Answer;
use hum_outside::{Failed, Sink, put_parts};
use hum_run::{Report, Stop};
use instr_table::Quota;
use itoa::Buffer;

fn kind_name(kind: Quota) -> &'static [u8]
    ensures { result.now ≡ kind_name kind }
{
    match kind {
        Quota::Memory => b"memory",
        Quota::Events => b"events",
        Quota::Cycles => b"cycles",
    }
}

// Writes the line of what the root ran out of, if it did.
fn put_spent<K: Sink>(err: &mut K, stop: Stop) -> Result<(), Failed>
    ensures all { OnOk result (K.written err.new ≡ appended (K.written err.old) (spent_line stop)) }
    ensures front { OnErr result (AppendsFront (K.written err.old) (K.written err.new) (spent_line stop)) }
    ensures cause { HasCause (K.faults err.old) (K.faults err.new) result }
{
    match stop {
        Stop::Rest => Ok(()),
        Stop::Bound => Ok(()),
        Stop::Broken => Ok(()),
        Stop::Spent { kind, .. } => put_parts(err, &[b"spent ", kind_name(kind), b"\n"]),
    }
}

// Writes the line of counts.
fn put_counts<K: Sink>(err: &mut K, report: Report) -> Result<(), Failed>
    ensures all { OnOk result (K.written err.new ≡ appended (K.written err.old) (counts_line report)) }
    ensures front { OnErr result (AppendsFront (K.written err.old) (K.written err.new) (counts_line report)) }
    ensures cause { HasCause (K.faults err.old) (K.faults err.new) result }
{
    let (mut finished, mut committed) = (Buffer::new(), Buffer::new());
    let (mut failed, mut spent, mut pending) = (Buffer::new(), Buffer::new(), Buffer::new());
    put_parts(
        err,
        &[
            b"finished ",
            finished.format(report.finished).as_bytes(),
            b" committed ",
            committed.format(report.committed).as_bytes(),
            b" failed ",
            failed.format(report.failed).as_bytes(),
            b" spent ",
            spent.format(report.spent).as_bytes(),
            b" pending ",
            pending.format(report.pending).as_bytes(),
            b"\n",
        ],
    )
}

// Writes the lines that end a run: what the root ran out of, if it did, and the counts.
fn put_ending<K: Sink>(err: &mut K, stop: Stop, report: Report) -> Result<(), Failed>
    ensures all { OnOk result (K.written err.new ≡ appended (K.written err.old) (ending stop report)) }
    ensures front { OnErr result (AppendsFront (K.written err.old) (K.written err.new) (ending stop report)) }
    ensures cause { HasCause (K.faults err.old) (K.faults err.new) result }
{
    put_spent(err, stop)?;
    put_counts(err, report)
}

// The answer of a run that stopped for this and came to these counts.
fn answer_to(stop: Stop, report: Report) -> Answer
    ensures { AnswersTo stop report result }
{
    match stop {
        Stop::Spent { kind, .. } => Answer::Spent(kind),
        Stop::Bound => Answer::Bound,
        Stop::Broken => Answer::Fault,
        Stop::Rest => {
            if report.failed == 0 {
                Answer::Done
            } else {
                Answer::EventFailed
            }
        }
    }
}

/// Writes the lines that end a run, and gives its answer: a fault where they could not be written.
pub fn end_run<K: Sink>(err: &mut K, stop: Stop, report: Report) -> Answer
    ensures ends { EndsSo stop report result (writes K.written K.faults err.old err.new) }
    ensures later { K.faults err.old ≤ K.faults err.new }
{
    match put_ending(err, stop, report) {
        Ok(()) => answer_to(stop, report),
        Err(Failed) => Answer::Fault,
    }
}
