// The line of an event that failed.
ghost use Rattle.std.specs.Prelude.{◌≡◌, OnOk, OnErr};
ghost use Rattle.std.specs.Option.{option_map};
ghost use Rattle.hum_outside.specs.Outside.{HasCause, AppendsFront, appended};
ghost use Rattle.failure_lines.specs.Failure.{name_of, code_text, line_with, failure_line};

use cap_words::Word;
use hum_outside::{Failed, Sink, put_parts};
use itoa::Buffer;

// What a reason is called, if it has a name.
fn name_of(reason: i32) -> Option<&'static [u8]>
    ensures { option_map (λ name. name.now) result ≡ name_of reason }
{
    match reason {
        1 => Some(b"no match"),
        2 => Some(b"not a function"),
        3 => Some(b"not an actor"),
        4 => Some(b"not a number"),
        5 => Some(b"not a truth value"),
        6 => Some(b"second become"),
        7 => Some(b"thrown"),
        8 => Some(b"device refused"),
        16 => Some(b"bad instruction"),
        17 => Some(b"assertion failed"),
        18 => Some(b"not fresh"),
        19 => Some(b"not a sponsor"),
        20 => Some(b"short"),
        21 => Some(b"stopped"),
        22 => Some(b"running"),
        _ => None,
    }
}

// Writes the line of an event that failed for a reason with a name.
fn put_named<K: Sink>(err: &mut K, message: u32, name: &[u8]) -> Result<(), Failed>
    ensures all { OnOk result (K.written err.new ≡ appended (K.written err.old) (line_with message name.now)) }
    ensures front { OnErr result (AppendsFront (K.written err.old) (K.written err.new) (line_with message name.now)) }
    ensures cause { HasCause (K.faults err.old) (K.faults err.new) result }
{
    let mut number = Buffer::new();
    let message = number.format(message).as_bytes();
    put_parts(err, &[b"event ", message, b" failed: ", name, b"\n"])
}

// Writes the line of an event that failed for a reason that is a number without a name.
fn put_coded<K: Sink>(err: &mut K, message: u32, reason: i32) -> Result<(), Failed>
    ensures all { OnOk result (K.written err.new ≡ appended (K.written err.old) (line_with message (code_text reason))) }
    ensures front { OnErr result (AppendsFront (K.written err.old) (K.written err.new) (line_with message (code_text reason))) }
    ensures cause { HasCause (K.faults err.old) (K.faults err.new) result }
{
    let (mut number, mut code) = (Buffer::new(), Buffer::new());
    let message = number.format(message).as_bytes();
    let code = code.format(reason).as_bytes();
    put_parts(err, &[b"event ", message, b" failed: code ", code, b"\n"])
}

/// Writes the line of an event that failed: the number of its message, and the text of the reason.
///
/// `Failed` comes only where the sink's count of faults rose, and then a front of the line was appended.
pub fn put_failure<K: Sink>(err: &mut K, message: u32, reason: Word) -> Result<(), Failed>
    ensures all { OnOk result (K.written err.new ≡ appended (K.written err.old) (failure_line message reason)) }
    ensures front { OnErr result (AppendsFront (K.written err.old) (K.written err.new) (failure_line message reason)) }
    ensures cause { HasCause (K.faults err.old) (K.faults err.new) result }
{
    let Some(number) = reason.number() else {
        return put_named(err, message, b"aborted");
    };
    match name_of(number) {
        Some(name) => put_named(err, message, name),
        None => put_coded(err, message, number),
    }
}
