// Turns to an end, with the lines of the events that fail.
ghost use Rattle.std.specs.Prelude.{◌≡◌, ◌≤◌, ◌+◌, [], false, true, None, IfOk, IfErr, OnOk, OnErr};
ghost use Rattle.hum_outside.specs.Outside.{HasCause, AppendsFront, appended};
ghost use Rattle.hum_run.specs.Drive.{IsRun, Drives, Breaks, RoseOn, Stops, Unreached, RanOutSince, Goes, is_reached, stop_before, entry_line, turn_line, is_turn};
ghost use Rattle.vm_turn.specs.declared.journal.Entry.{Entry as Ended};
ghost use Rattle.vm_turn.specs.declared.journal.Turn.TheVariants.{Finished};

use crate::driven::Driven;
use crate::stop::{Stop, WriteFault};
use failure_lines::put_failure;
use hum_outside::{Failed, Sink};
use vm_machine::Machine;
use vm_turn::{Entry, Outcome, Turn};

// Whether the bound's number of events is finished and a message is pending.
fn is_reached(machine: &Machine, bound: Option<u32>) -> bool
    ensures { result ≡ is_reached bound machine.now.state }
{
    match bound {
        Some(bound) => bound as usize <= machine.journal().len() && machine.pending() > 0,
        None => false,
    }
}

// Why no turn is to be taken, if none is: the root ran out, or else the bound is reached.
fn stop_before(machine: &Machine, bound: Option<u32>) -> Option<Stop>
    ensures { result ≡ stop_before bound machine.now.state }
{
    match machine.ran_out() {
        Some(kind) => Some(Stop::Spent {
            kind,
            held: machine.root_holds(kind),
        }),
        None if is_reached(machine, bound) => Some(Stop::Bound),
        None => None,
    }
}

// Writes the line of an entry, if it has one.
fn put_entry<K: Sink>(err: &mut K, entry: &Entry) -> Result<(), Failed>
    ensures all { OnOk result (K.written err.new ≡ appended (K.written err.old) (entry_line entry.now)) }
    ensures front { OnErr result (AppendsFront (K.written err.old) (K.written err.new) (entry_line entry.now)) }
    ensures line { OnErr result (entry_line entry.now ≡ [] → ⊥) }
    ensures cause { HasCause (K.faults err.old) (K.faults err.new) result }
{
    match entry.outcome {
        Outcome::Failed(reason) => put_failure(err, entry.message, reason),
        Outcome::Committed => Ok(()),
        Outcome::RanOut(_) => Ok(()),
    }
}

// Writes the line that a turn adds, if it adds one.
fn put_turn<K: Sink>(err: &mut K, turn: &Turn) -> Result<(), Failed>
    ensures all { OnOk result (K.written err.new ≡ appended (K.written err.old) (turn_line turn.now)) }
    ensures front { OnErr result ((entry : Ended) × (turn.now ≡ Finished entry) × (entry_line entry ≡ [] → ⊥) × AppendsFront (K.written err.old) (K.written err.new) (entry_line entry)) }
    ensures cause { HasCause (K.faults err.old) (K.faults err.new) result }
{
    match turn {
        Turn::Finished(entry) => put_entry(err, entry),
        _ => Ok(()),
    }
}

// Whether a turn was taken, or there was none to take.
fn is_turn(turn: &Turn) -> bool
    ensures { result ≡ is_turn turn.now }
{
    match turn {
        Turn::Rest => false,
        _ => true,
    }
}

// Takes one turn, and writes the line that it adds. Says whether there was one to take.
fn step_once<D: Driven, K: Sink>(
    driven: &mut D,
    out: &mut K,
    err: &mut K,
) -> Result<bool, WriteFault>
    requires run { IsRun (D.machine_of driven.old) }
    requires not_out { (D.machine_of driven.old).state.out_of ≡ None }
    ensures drives { IfOk result (λ taken. Drives (D.machine_of driven.old) (D.machine_of driven.new) (K.written out.old) (K.written out.new) (K.written err.old) (K.written err.new)) }
    ensures goes { IfOk result (λ taken. Goes taken (D.machine_of driven.old) (D.machine_of driven.new)) }
    ensures one_turn { (D.machine_of driven.new).turns ≤ (D.machine_of driven.old).turns + 1 }
    ensures breaks { IfErr result (λ fault. Breaks fault.on_err (D.machine_of driven.old) (D.machine_of driven.new) (K.written out.old) (K.written out.new) (K.written err.old) (K.written err.new)) }
    ensures rose { IfErr result (λ fault. RoseOn fault.on_err (K.faults out.old) (K.faults out.new) (K.faults err.old) (K.faults err.new)) }
    ensures kept { IfErr result (λ fault. fault.on_err ≡ false → (D.machine_of driven.new).state ≡ (D.machine_of driven.old).state) }
    ensures program { D.program_of driven.new ≡ D.program_of driven.old }
    ensures out_later { K.faults out.old ≤ K.faults out.new }
    ensures err_later { K.faults err.old ≤ K.faults err.new }
{
    let Ok(turn) = driven.turn(out) else {
        return Err(WriteFault { on_err: false });
    };
    match put_turn(err, &turn) {
        Ok(()) => Ok(is_turn(&turn)),
        Err(Failed) => Err(WriteFault { on_err: true }),
    }
}

/// Takes turns until none is left to take, the root sponsor has run out or the bound is reached, and writes the line of each event that
/// failed to `err`. Before each turn it is tested whether the root has run out, and then whether the bound's number of events is finished
/// and a message is pending: there it takes none. It takes no memory.
///
/// `WriteFault` comes only where the count of that sink rose. Where `out` failed, the event of the next turn is unfinished, and a front of
/// what it writes was written; where `err` failed, the last event is finished, it failed, and a front of its line was written.
pub fn drive<D: Driven, K: Sink>(
    driven: &mut D,
    bound: Option<u32>,
    out: &mut K,
    err: &mut K,
) -> Result<Stop, WriteFault>
    ensures drives { IfOk result (λ stop. Drives (D.machine_of driven.old) (D.machine_of driven.new) (K.written out.old) (K.written out.new) (K.written err.old) (K.written err.new)) }
    ensures stops { IfOk result (λ stop. Stops bound stop (D.machine_of driven.new)) }
    ensures ran_out { IfOk result (λ stop. RanOutSince (D.machine_of driven.old).state.out_of (D.machine_of driven.new)) }
    ensures unreached { Unreached bound (D.machine_of driven.old).turns (D.machine_of driven.new) }
    ensures breaks { IfErr result (λ fault. Breaks fault.on_err (D.machine_of driven.old) (D.machine_of driven.new) (K.written out.old) (K.written out.new) (K.written err.old) (K.written err.new)) }
    ensures rose { IfErr result (λ fault. RoseOn fault.on_err (K.faults out.old) (K.faults out.new) (K.faults err.old) (K.faults err.new)) }
    ensures unreached_now { IfErr result (λ fault. fault.on_err ≡ false → is_reached bound (D.machine_of driven.new).state ≡ false) }
    ensures program { D.program_of driven.new ≡ D.program_of driven.old }
    ensures out_later { K.faults out.old ≤ K.faults out.new }
    ensures err_later { K.faults err.old ≤ K.faults err.new }
{
    let mut turns = driven.machine().turns();
    'turns: loop {
        if let Some(stop) = stop_before(driven.machine(), bound) {
            return Ok(stop);
        }
        match step_once(driven, out, err) {
            Ok(true) => {}
            Ok(false) => return Ok(Stop::Rest),
            Err(fault) => return Err(fault),
        }
        prove!(turns < driven.machine().turns());
        turns = driven.machine().turns();
    }
}
