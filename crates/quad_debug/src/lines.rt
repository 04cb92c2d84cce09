// The lines that a debugger writes.

ghost use Rattle.std.specs.Prelude.{◌≡◌, ◌<◌, OnOk, OnErr};
ghost use Rattle.std.specs.List.{flat_map};
ghost use Rattle.hum_outside.specs.Outside.{HasCause, AppendsFront, appended};
ghost use Rattle.quad_debug.specs.Texts as spec;

use crate::command::Place;
use cap_words::{Quad, Word};
use event_queue::Queue;
use failure_lines::put_failure;
use hum_outside::{Failed, Sink, put_all, put_parts};
use instr_table::Quota;
use itoa::Buffer;
use vm_turn::{Entry, Outcome};

/// The name of a kind.
pub fn kind_name(kind: Quota) -> &'static [u8]
    ensures { result.now ≡ spec.kind_name kind }
{
    match kind {
        Quota::Memory => b"memory",
        Quota::Events => b"events",
        Quota::Cycles => b"cycles",
    }
}

// Writes the line of an event that committed.
fn put_committed<K: Sink>(out: &mut K, message: u32) -> Result<(), Failed>
    ensures all { OnOk result (K.written out.new ≡ appended (K.written out.old) (spec.committed_line message)) }
    ensures front { OnErr result (AppendsFront (K.written out.old) (K.written out.new) (spec.committed_line message)) }
    ensures cause { HasCause (K.faults out.old) (K.faults out.new) result }
{
    let mut number = Buffer::new();
    put_parts(
        out,
        &[
            b"* event ",
            number.format(message).as_bytes(),
            b" committed\n",
        ],
    )
}

// Writes the line of an event that failed.
fn put_failed<K: Sink>(out: &mut K, message: u32, reason: Word) -> Result<(), Failed>
    ensures all { OnOk result (K.written out.new ≡ appended (K.written out.old) (spec.failed_line message reason)) }
    ensures front { OnErr result (AppendsFront (K.written out.old) (K.written out.new) (spec.failed_line message reason)) }
    ensures cause { HasCause (K.faults out.old) (K.faults out.new) result }
{
    put_all(out, b"* ")?;
    put_failure(out, message, reason)
}

// Writes the line of an event whose sponsor ran out.
fn put_ran_out<K: Sink>(out: &mut K, message: u32, kind: Quota) -> Result<(), Failed>
    ensures all { OnOk result (K.written out.new ≡ appended (K.written out.old) (spec.ran_out_line message kind)) }
    ensures front { OnErr result (AppendsFront (K.written out.old) (K.written out.new) (spec.ran_out_line message kind)) }
    ensures cause { HasCause (K.faults out.old) (K.faults out.new) result }
{
    let mut number = Buffer::new();
    let message = number.format(message).as_bytes();
    put_parts(
        out,
        &[b"* event ", message, b" spent ", kind_name(kind), b"\n"],
    )
}

/// Writes the line of an entry.
pub fn put_event<K: Sink>(out: &mut K, entry: &Entry) -> Result<(), Failed>
    ensures all { OnOk result (K.written out.new ≡ appended (K.written out.old) (spec.event_line entry.now)) }
    ensures front { OnErr result (AppendsFront (K.written out.old) (K.written out.new) (spec.event_line entry.now)) }
    ensures cause { HasCause (K.faults out.old) (K.faults out.new) result }
{
    match entry.outcome {
        Outcome::Committed => put_committed(out, entry.message),
        Outcome::Failed(reason) => put_failed(out, entry.message, reason),
        Outcome::RanOut(kind) => put_ran_out(out, entry.message, kind),
    }
}

/// Writes the line of each entry, in order.
pub fn put_events<K: Sink>(out: &mut K, entries: &[Entry]) -> Result<(), Failed>
    ensures all { OnOk result (K.written out.new ≡ appended (K.written out.old) (spec.event_lines entries.now)) }
    ensures front { OnErr result (AppendsFront (K.written out.old) (K.written out.new) (spec.event_lines entries.now)) }
    ensures cause { HasCause (K.faults out.old) (K.faults out.new) result }
{
    for entry in entries {
        put_event(out, entry)?;
    }
    Ok(())
}

/// Writes how many turns are completed.
pub fn put_turns<K: Sink>(out: &mut K, turns: u64) -> Result<(), Failed>
    ensures all { OnOk result (K.written out.new ≡ appended (K.written out.old) (spec.turn_line turns)) }
    ensures front { OnErr result (AppendsFront (K.written out.old) (K.written out.new) (spec.turn_line turns)) }
    ensures cause { HasCause (K.faults out.old) (K.faults out.new) result }
{
    let mut number = Buffer::new();
    put_parts(out, &[b"* turn ", number.format(turns).as_bytes(), b"\n"])
}

/// Writes that a message is in flight.
pub fn put_flight<K: Sink>(out: &mut K, message: u32) -> Result<(), Failed>
    ensures all { OnOk result (K.written out.new ≡ appended (K.written out.old) (spec.flight_line message)) }
    ensures front { OnErr result (AppendsFront (K.written out.old) (K.written out.new) (spec.flight_line message)) }
    ensures cause { HasCause (K.faults out.old) (K.faults out.new) result }
{
    let mut number = Buffer::new();
    put_parts(
        out,
        &[b"* in flight ", number.format(message).as_bytes(), b"\n"],
    )
}

// Writes that a message is ready.
fn put_ready<K: Sink>(out: &mut K, message: u32) -> Result<(), Failed>
    ensures all { OnOk result (K.written out.new ≡ appended (K.written out.old) (spec.ready_line message)) }
    ensures front { OnErr result (AppendsFront (K.written out.old) (K.written out.new) (spec.ready_line message)) }
    ensures cause { HasCause (K.faults out.old) (K.faults out.new) result }
{
    let mut number = Buffer::new();
    put_parts(
        out,
        &[b"* ready ", number.format(message).as_bytes(), b"\n"],
    )
}

/// Writes that each ready message is, in order.
pub fn put_queue<K: Sink>(out: &mut K, queue: &Queue) -> Result<(), Failed>
    ensures all { OnOk result (K.written out.new ≡ appended (K.written out.old) (flat_map spec.ready_line queue.now.ready)) }
    ensures front { OnErr result (AppendsFront (K.written out.old) (K.written out.new) (flat_map spec.ready_line queue.now.ready)) }
    ensures cause { HasCause (K.faults out.old) (K.faults out.new) result }
{
    let _given = queue.given();
    let mut next = queue.next_ready(None);
    'ready: while let Some(message) = next {
        put_ready(out, message)?;
        next = queue.next_ready(Some(message));
    }
    Ok(())
}

fn hex_digit(digit: u32) -> u8
    requires { digit < 16 }
    ensures { result ≡ spec.hex_digit digit }
{
    if digit < 10 {
        b'0' + digit as u8
    } else {
        b'7' + digit as u8
    }
}

// A number in 8 hexadecimal digits.
#[tactic(auto, unfolding(crate::specs::Texts::hex_of))]
fn hex_of(bits: u32) -> [u8; 8]
    ensures { result ≡ spec.hex_of bits }
{
    [
        hex_digit(bits / 268_435_456 % 16),
        hex_digit(bits / 16_777_216 % 16),
        hex_digit(bits / 1_048_576 % 16),
        hex_digit(bits / 65_536 % 16),
        hex_digit(bits / 4_096 % 16),
        hex_digit(bits / 256 % 16),
        hex_digit(bits / 16 % 16),
        hex_digit(bits % 16),
    ]
}

fn memory_name(place: Place) -> &'static [u8]
    ensures { result.now ≡ spec.memory_name place }
{
    match place {
        Place::Rom(_) => b"rom",
        Place::Ram(_) => b"ram",
    }
}

fn place_number(place: Place) -> u32
    ensures { result ≡ spec.place_number place }
{
    match place {
        Place::Rom(number) => number,
        Place::Ram(number) => number,
    }
}

// Writes the line of a place that has no cell.
fn put_no_cell<K: Sink>(out: &mut K, place: Place) -> Result<(), Failed>
    ensures all { OnOk result (K.written out.new ≡ appended (K.written out.old) (spec.no_cell_line place)) }
    ensures front { OnErr result (AppendsFront (K.written out.old) (K.written out.new) (spec.no_cell_line place)) }
    ensures cause { HasCause (K.faults out.old) (K.faults out.new) result }
{
    let mut number = Buffer::new();
    let memory = memory_name(place);
    let number = number.format(place_number(place)).as_bytes();
    put_parts(out, &[b"* ", memory, b" ", number, b" none\n"])
}

// Writes the line of a place with the words of its cell.
fn put_words<K: Sink>(out: &mut K, place: Place, cell: Quad) -> Result<(), Failed>
    ensures all { OnOk result (K.written out.new ≡ appended (K.written out.old) (spec.words_line place cell)) }
    ensures front { OnErr result (AppendsFront (K.written out.old) (K.written out.new) (spec.words_line place cell)) }
    ensures cause { HasCause (K.faults out.old) (K.faults out.new) result }
{
    let mut number = Buffer::new();
    let memory = memory_name(place);
    let number = number.format(place_number(place)).as_bytes();
    let (t, x) = (hex_of(cell.t.bits()), hex_of(cell.x.bits()));
    let (y, z) = (hex_of(cell.y.bits()), hex_of(cell.z.bits()));
    put_parts(
        out,
        &[
            b"* ", memory, b" ", number, b" ", &t, b" ", &x, b" ", &y, b" ", &z, b"\n",
        ],
    )
}

/// Writes the line of a place, with the words of its cell, if it has one.
pub fn put_cell<K: Sink>(out: &mut K, place: Place, cell: Option<Quad>) -> Result<(), Failed>
    ensures all { OnOk result (K.written out.new ≡ appended (K.written out.old) (spec.cell_line place cell)) }
    ensures front { OnErr result (AppendsFront (K.written out.old) (K.written out.new) (spec.cell_line place cell)) }
    ensures cause { HasCause (K.faults out.old) (K.faults out.new) result }
{
    match cell {
        Some(cell) => put_words(out, place, cell),
        None => put_no_cell(out, place),
    }
}
