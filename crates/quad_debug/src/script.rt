// Reads scripts.

ghost use Rattle.std.specs.Prelude.{◌≡◌, ◌<◌, ◌≤◌, ◌^◌, ℕ, [], ◌∷◌, ◌++◌, length, IfOk, OnOk, Err, Some, None, true};
ghost use Rattle.std.specs.Char.{is_ascii_digit};
ghost use Rattle.std.specs.List.{list_all};
ghost use Rattle.uasm_read.specs.Texts as texts;
ghost use Rattle.quad_debug.specs.Script as spec;
ghost use Rattle.quad_debug.specs.declared.script.ScriptError.TheVariants.{NoMemory, Refused};

use crate::command::{Command, Place};
use crate::line::Line;
use crate::texts::{cut_line, next_part};
use std::alloc::{AllocError, Global};

/// Why a script was not read.
#[derive(Clone, Copy, Debug, PartialEq, Eq)]
pub enum ScriptError {
    /// No memory was left for its commands.
    NoMemory,
    /// The first line, counted from 1, that is neither blank nor a command.
    Refused { line: u32 },
}

impl From<AllocError> for ScriptError {
    ghost from_gives = { λ _ e. e ≡ NoMemory };

    fn from(_: AllocError) -> Self {
        ScriptError::NoMemory
    }
}

fn are_digits(bytes: &[u8]) -> bool
    ensures { result ≡ list_all is_ascii_digit bytes.now }
{
    for b in bytes {
        if !b.is_ascii_digit() {
            return false;
        }
    }
    true
}

// What at most 9 digits say.
fn value(digits: &[u8]) -> u32
    requires digits { list_all is_ascii_digit digits.now ≡ true }
    requires few { length digits.now ≤ 9 }
    ensures { result ≡ texts.value_from 0 digits.now }
{
    let mut sum = 0;
    for d in digits {
        sum = 10 * sum + (*d - b'0') as u32;
    }
    sum
}

// The number that a part says.
#[tactic(auto, unfolding(crate::specs::Script::number_of))]
fn number_of(part: &[u8]) -> Option<u32>
    ensures { result ≡ spec.number_of part.now }
{
    if part.is_empty() || part.len() > 9 || !are_digits(part) {
        return None;
    }
    Some(value(part))
}

// A command that has nothing behind it.
#[tactic(auto, unfolding(crate::specs::Script::plain))]
fn plain(word: &[u8]) -> Option<Command>
    ensures { result ≡ spec.plain word.now }
{
    if word == b"queue".as_slice() {
        Some(Command::Queue)
    } else if word == b"sheet".as_slice() {
        Some(Command::Sheet)
    } else {
        None
    }
}

fn back_by(count: u32) -> Option<Command>
    ensures { result ≡ spec.back_by count }
{
    if count >= 1 && count <= 64 {
        Some(Command::Back(count))
    } else {
        None
    }
}

// A command with a number behind it.
#[tactic(auto, unfolding(crate::specs::Script::counted))]
fn counted(word: &[u8], number: u32) -> Option<Command>
    ensures { result ≡ spec.counted word.now number }
{
    if word == b"step".as_slice() {
        Some(Command::Step(number))
    } else if word == b"event".as_slice() {
        Some(Command::Event(number))
    } else if word == b"break".as_slice() {
        Some(Command::BreakAt(number))
    } else if word == b"back".as_slice() {
        back_by(number)
    } else {
        None
    }
}

#[tactic(auto, unfolding(crate::specs::Script::place_of))]
fn place_of(memory: &[u8], number: u32) -> Option<Place>
    ensures { result ≡ spec.place_of memory.now number }
{
    if memory == b"rom".as_slice() {
        Some(Place::Rom(number))
    } else if memory == b"ram".as_slice() {
        Some(Place::Ram(number))
    } else {
        None
    }
}

// `show`, with a place behind it.
#[tactic(auto, unfolding(crate::specs::Script::shown))]
fn shown(word: &[u8], memory: &[u8], number: u32) -> Option<Command>
    ensures { result ≡ spec.shown word.now memory.now number }
{
    if word != b"show".as_slice() {
        return None;
    }
    match place_of(memory, number) {
        Some(place) => Some(Command::Show(place)),
        None => None,
    }
}

// The command that a word and the parts of some text are.
#[tactic(auto, unfolding(crate::specs::Script::command_of))]
fn command_of(word: &[u8], text: &[u8]) -> Option<Command>
    ensures { result ≡ spec.command_of (word.now ∷ texts.parts_of text.now) }
{
    let Some((second, rest)) = next_part(text) else {
        return plain(word);
    };
    let Some((third, rest)) = next_part(rest) else {
        return counted(word, number_of(second)?);
    };
    if next_part(rest).is_some() {
        return None;
    }
    shown(word, second, number_of(third)?)
}

// What a line says. One without a byte is blank.
#[tactic(auto, unfolding(crate::specs::Script::line_of, crate::specs::Script::line_in))]
fn line_of(line: &[u8]) -> Line
    ensures value { result ≡ spec.line_of line.now }
    ensures some { spec.is_bad result ≡ true → 0 < length line.now }
{
    let Some((word, rest)) = next_part(line) else {
        return Line::Blank;
    };
    match command_of(word, rest) {
        Some(command) => Line::Says(command),
        None => Line::Bad,
    }
}

fn add(commands: &mut Vec<Command>, command: Command) -> Result<(), AllocError>
    ensures { OnOk result (commands.new.items ≡ commands.old.items ++ command ∷ []) }
{
    commands.push(command)?;
    Ok(())
}

/// The commands of a script, one a line.
///
/// Lines are ended by a line feed or the end of the script, and a carriage return before a line feed is a blank; spaces and tabs separate
/// parts; blank lines say nothing. A number has 1 to 9 digits. `Refused` comes exactly where a line is neither blank nor a command, with
/// the first such line; any call may answer `NoMemory` instead.
pub fn read_script(alloc: Global, bytes: &[u8]) -> Result<Vec<Command>, ScriptError>
    requires { length bytes.now < 2 ^ 32 }
    ensures commands { IfOk result (λ commands. commands.items ≡ spec.commands_of bytes.now) }
    ensures formed { IfOk result (λ commands. spec.bad_line bytes.now ≡ None) }
    ensures refused { (line : ℕ) → result ≡ Err (Refused line) → spec.bad_line bytes.now ≡ Some line }
{
    let mut commands = Vec::new(alloc);
    let mut rest = bytes;
    let mut number: u64 = 1;
    'lines: loop {
        let (line, more) = cut_line(rest);
        match line_of(line) {
            Line::Blank => {}
            Line::Says(command) => add(&mut commands, command)?,
            Line::Bad => {
                return Err(ScriptError::Refused {
                    line: number as u32,
                });
            }
        }
        let Some(after) = more else {
            return Ok(commands);
        };
        rest = after;
        number += 1;
    }
}
