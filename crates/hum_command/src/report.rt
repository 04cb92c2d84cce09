// The lines of refusals.
ghost use Rattle.std.specs.Prelude.{◌≤◌, ◌∷◌, [], codes};
ghost use Rattle.std.specs.List.{concat, flat_map};
ghost use Rattle.hum_command.specs.Writes.{Said, writes};
ghost use Rattle.hum_command.specs.Refusals.{refusal_line, text_refusal_line, answer_line};

use crate::answer::Answer;
use crate::refusal::{
    Refusal, TextRefusal, cause_text, image_cause_text, text_cause_text, told_name,
};
use hum_outside::{Sink, put_parts};
use itoa::Buffer;

/// Writes the line of a refusal, if it has one. A fault is let pass: the refusal's status tells more.
pub fn refuse<K: Sink>(err: &mut K, answer: &Answer, name: &str)
    ensures later { K.faults err.old ≤ K.faults err.new }
    ensures said { Said (writes K.written K.faults err.old err.new) (answer_line answer.now name.now) }
{
    let name = name.as_bytes();
    match answer {
        Answer::Done | Answer::Fault | Answer::Spent(_) | Answer::Bound | Answer::EventFailed => {}
        Answer::Usage => say(err, &[b"usage: humus COMMAND FILE.. [KEY=N..]\n"]),
        Answer::Unread => say(err, &[b"cannot read ", name, b"\n"]),
        Answer::NoMemory => say(err, &[b"no memory\n"]),
        Answer::TextRefused(why) => refuse_text(err, why, name),
        Answer::Refused(why) => refuse_contents(err, why, name),
        Answer::ScriptRefused(line) => {
            let mut number = Buffer::new();
            say_at(err, name, number.format(*line).as_bytes(), b"not a command");
        }
    }
}

// Writes the line of a refused text.
fn refuse_text<K: Sink>(err: &mut K, why: &TextRefusal, name: &[u8])
    ensures later { K.faults err.old ≤ K.faults err.new }
    ensures said { Said (writes K.written K.faults err.old err.new) (text_refusal_line why.now name.now) }
{
    match why {
        TextRefusal::TooLong => say(err, &[name, b": text too long\n"]),
        TextRefusal::At(place, cause) => {
            let (mut line, mut column) = (Buffer::new(), Buffer::new());
            let line = line.format(place.line).as_bytes();
            let column = column.format(place.column).as_bytes();
            say_place(
                err,
                name,
                line,
                column,
                text_cause_text(cause),
                told_name(cause),
            );
        }
    }
}

// Writes what is said of a place in the text of that name.
fn say_place<'a, K: Sink>(
    err: &mut K,
    name: &'a [u8],
    line: &'a [u8],
    column: &'a [u8],
    cause: &'a [u8],
    told: &'a [u8],
)
    ensures later { K.faults err.old ≤ K.faults err.new }
    ensures said { Said (writes K.written K.faults err.old err.new)
        (concat (name.now ∷ codes ":" ∷ line.now ∷ codes ":" ∷ column.now ∷ codes ": " ∷ cause.now ∷ told.now ∷ codes "\n" ∷ [])) }
{
    say(
        err,
        &[name, b":", line, b":", column, b": ", cause, told, b"\n"],
    );
}

// Writes the line of refused contents.
fn refuse_contents<K: Sink>(err: &mut K, why: &Refusal, name: &[u8])
    ensures later { K.faults err.old ≤ K.faults err.new }
    ensures said { Said (writes K.written K.faults err.old err.new) (refusal_line why.now name.now) }
{
    match why {
        Refusal::FileTooLong => say(err, &[name, b": file too long\n"]),
        Refusal::Image(place) => {
            let mut at = Buffer::new();
            let at = at.format(place.at).as_bytes();
            say_image(err, name, at, image_cause_text(place.cause));
        }
        Refusal::Module(at) => {
            let mut line = Buffer::new();
            let line = line.format(at.line).as_bytes();
            say_at(err, name, line, cause_text(at.cause));
        }
        Refusal::Twice(x) => say(err, &[b"link: name twice ", x.bytes(), b"\n"]),
        Refusal::NoSuch(x) => say(err, &[b"link: no such name ", x.bytes(), b"\n"]),
        Refusal::NoBoot => say(err, &[b"link: no boot\n"]),
        Refusal::TooLarge => say(err, &[b"link: too large\n"]),
    }
}

// Writes what is said of a line of the file of that name.
fn say_at<'a, K: Sink>(err: &mut K, name: &'a [u8], line: &'a [u8], cause: &'a [u8])
    ensures later { K.faults err.old ≤ K.faults err.new }
    ensures said { Said (writes K.written K.faults err.old err.new)
        (concat (name.now ∷ codes ":" ∷ line.now ∷ codes ": " ∷ cause.now ∷ codes "\n" ∷ [])) }
{
    say(err, &[name, b":", line, b": ", cause, b"\n"]);
}

// Writes what is said of a place in the image of that name.
fn say_image<'a, K: Sink>(err: &mut K, name: &'a [u8], at: &'a [u8], cause: &'a [u8])
    ensures later { K.faults err.old ≤ K.faults err.new }
    ensures said { Said (writes K.written K.faults err.old err.new)
        (concat (name.now ∷ codes ": image refused at " ∷ at.now ∷ codes ": " ∷ cause.now ∷ codes "\n" ∷ [])) }
{
    say(
        err,
        &[name, b": image refused at ", at, b": ", cause, b"\n"],
    );
}

// Writes a line, and lets a fault pass.
fn say<K: Sink>(sink: &mut K, parts: &[&[u8]])
    ensures later { K.faults sink.old ≤ K.faults sink.new }
    ensures said { Said (writes K.written K.faults sink.old sink.new) (flat_map (λ part. part.now) parts.now) }
{
    let _ = put_parts(sink, parts);
}
