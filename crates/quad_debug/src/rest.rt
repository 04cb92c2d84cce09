// Whether a machine is at rest, and how commands that wait end.

ghost use Rattle.std.specs.Prelude.{◌≡◌, not, OnOk, OnErr};
ghost use Rattle.hum_outside.specs.Outside.{HasCause, AppendsFront, appended};
ghost use Rattle.quad_debug.specs.Obeys as spec;

use crate::lines::put_flight;
use crate::wait::{Wait, is_begun};
use hum_outside::{Failed, Sink, put_all};
use vm_machine::Machine;

// Whether nothing is in flight.
fn is_flight_empty(machine: &Machine) -> bool
    ensures { result ≡ spec.is_empty machine.now.state.flight }
{
    let _turns = machine.turns();
    for message in 0..machine.queue().given() {
        if machine.in_flight(message) {
            return false;
        }
    }
    true
}

// Whether nothing is in flight and no message can go.
fn is_at_rest(machine: &Machine) -> bool
    ensures { result ≡ spec.is_at_rest machine.now.state }
{
    let _turns = machine.turns();
    let _sheet = machine.sheet();
    is_flight_empty(machine) && machine.queue().first_ready(machine.quads()).is_none()
}

// Writes that the message that is waited for is in flight.
fn put_begun<K: Sink>(out: &mut K, wait: Wait) -> Result<(), Failed>
    ensures all { OnOk result (K.written out.new ≡ appended (K.written out.old) (spec.begun_line wait)) }
    ensures front { OnErr result (AppendsFront (K.written out.old) (K.written out.new) (spec.begun_line wait)) }
    ensures cause { HasCause (K.faults out.old) (K.faults out.new) result }
{
    match wait {
        Wait::Entries(_) => Ok(()),
        Wait::Message(message) => put_flight(out, message),
    }
}

/// Writes how a command ends that waits. `rests` says whether it is to be told that the machine is at rest.
pub fn put_ending<K: Sink>(
    out: &mut K,
    machine: &Machine,
    wait: Wait,
    rests: bool,
) -> Result<(), Failed>
    ensures all { OnOk result (K.written out.new ≡ appended (K.written out.old) (spec.ending wait rests machine.now.state)) }
    ensures front { OnErr result (AppendsFront (K.written out.old) (K.written out.new) (spec.ending wait rests machine.now.state)) }
    ensures cause { HasCause (K.faults out.old) (K.faults out.new) result }
{
    if let Some(_) = machine.ran_out() {
        return put_all(out, b"* spent\n");
    }
    if is_begun(wait, machine) {
        return put_begun(out, wait);
    }
    if rests && is_at_rest(machine) {
        return put_all(out, b"* rest\n");
    }
    Ok(())
}
