// The command `debug`: a machine that obeys the commands of a script.
ghost use Rattle.std.specs.Prelude.{◌≡◌, ◌<◌, ◌≤◌, ℕ, List, None, length, true, false, not, IfSome, IfOk, IfErr, OnOk, OnErr, MatchOption};
ghost use Rattle.hum_outside.specs.Outside.{HasCause};
ghost use Rattle.quad_debug.specs.Script.{commands_of};
ghost use Rattle.hum_command.specs.Keys.{WithinLimits};
ghost use Rattle.hum_command.specs.TextRefusals.{TextFails};
ghost use Rattle.hum_command.specs.DebugAnswers.{HaveBoth, DebugFails};
ghost use Rattle.hum_command.specs.Debugging as spec;
ghost use Rattle.hum_command.specs.DebugParts as parts;

use crate::answer::Answer;
use crate::exec::booted;
use crate::keys::Keys;
use crate::link::Declined;
use crate::load::{FILE_LIMIT, load};
use crate::reading::read_file;
use crate::refusal::{Refusal, TextRefusal};
use crate::run::{TEXT_LIMIT, refused};
use hum_outside::{Folder, Sink};
use hum_sim::compile;
use quad_debug::{Command, Debug, ScriptError, read_script};
use std::alloc::Global;
use vm_devices::WriteFault;
use vm_machine::Machine;

// The most bytes that a script may have.
const SCRIPT_LIMIT: u64 = 1_048_576;

/// A machine that took no turn yet, and what it is told to do.
#[derive(Drop)]
pub struct Session {
    pub machine: Machine,
    pub commands: Vec<Command>,
}

// Whether a file of that name is a text; any other is read as by `exec`.
fn is_text(name: &str) -> bool
    ensures { result ≡ spec.is_text name.now }
{
    name.as_bytes().ends_with(b".hum")
}

// The most bytes that the file may have.
fn code_limit(text: bool) -> u64
    ensures { result ≡ parts.code_limit text }
{
    if text { TEXT_LIMIT } else { FILE_LIMIT }
}

// The machine that the code of a text boots to.
fn boot_text(alloc: Global, text: &[u8], keys: Keys) -> Result<Machine, Answer>
    requires { WithinLimits keys }
    ensures boots { IfOk result (spec.BootsCode false text.now keys) }
    ensures fails { IfErr result (TextFails text.now) }
{
    match compile(alloc, text) {
        Ok(compiled) => match booted(alloc, compiled.image(), keys) {
            Ok(machine) => Ok(machine),
            Err(_) => Err(Answer::NoMemory),
        },
        Err(error) => Err(refused(alloc, text, error)),
    }
}

// The machine that an image or a module boots to.
fn boot_image(alloc: Global, bytes: &[u8], keys: Keys) -> Result<Machine, Answer>
    requires limits { WithinLimits keys }
    requires short { length bytes.now ≤ 16776972 }
    ensures boots { IfOk result (spec.BootsCode true bytes.now keys) }
    ensures fails { IfErr result (parts.NotBooted true bytes.now) }
{
    let image = match load(alloc, bytes) {
        Ok(image) => image,
        Err(answer) => return Err(answer),
    };
    match booted(alloc, &image, keys) {
        Ok(machine) => Ok(machine),
        Err(_) => Err(Answer::NoMemory),
    }
}

// The machine that the code in the bytes of a file boots to, where these are not too many.
fn boot_code(
    alloc: Global,
    text: bool,
    code: Option<Vec<u8>>,
    keys: Keys,
) -> Result<Machine, Answer>
    requires limits { WithinLimits keys }
    requires short { IfSome code (λ v. length v.items ≤ parts.code_limit text) }
    ensures boots { IfOk result (λ m. (bytes : List ℕ) →
        MatchOption code (parts.code_limit text < length bytes) (λ v. (v.items ≡ bytes) × (length bytes ≤ parts.code_limit text))
        → spec.BootsCode (not text) bytes keys m) }
    ensures fails { IfErr result (λ answer. (bytes : List ℕ) →
        MatchOption code (parts.code_limit text < length bytes) (λ v. (v.items ≡ bytes) × (length bytes ≤ parts.code_limit text))
        → parts.NotBooted (not text) bytes answer) }
{
    match (text, code) {
        (true, Some(code)) => boot_text(alloc, &code, keys),
        (true, None) => Err(Answer::TextRefused(TextRefusal::TooLong)),
        (false, Some(code)) => boot_image(alloc, &code, keys),
        (false, None) => Err(Answer::Refused(Refusal::FileTooLong)),
    }
}

// The commands of a script, where its bytes are not too many.
fn commands_in(alloc: Global, lines: Option<Vec<u8>>) -> Result<Vec<Command>, Answer>
    requires { IfSome lines (λ v. length v.items ≤ spec.script_limit) }
    ensures commands { IfOk result (λ commands. (bytes : List ℕ) →
        MatchOption lines (spec.script_limit < length bytes) (λ v. (v.items ≡ bytes) × (length bytes ≤ spec.script_limit))
        → (spec.script_fault bytes ≡ None) × (commands.items ≡ commands_of bytes)) }
    ensures fails { IfErr result (λ answer. (bytes : List ℕ) →
        MatchOption lines (spec.script_limit < length bytes) (λ v. (v.items ≡ bytes) × (length bytes ≤ spec.script_limit))
        → parts.NotCommands bytes answer) }
{
    let Some(lines) = lines else {
        return Err(Answer::ScriptRefused(1));
    };
    match read_script(alloc, &lines) {
        Ok(commands) => Ok(commands),
        Err(ScriptError::Refused { line }) => Err(Answer::ScriptRefused(line)),
        Err(ScriptError::NoMemory) => Err(Answer::NoMemory),
    }
}

/// The machine and the commands of `debug`: both files are read before the contents of any is refused, and the code before the script.
pub fn read_session<'a, F: Folder>(
    alloc: Global,
    files: &mut F,
    name: &'a str,
    script: &'a str,
    keys: Keys,
) -> Result<Session, Declined<'a>>
    requires { WithinLimits keys }
    ensures session { IfOk result (λ s. parts.IsSession (F.files files.old) name.now script.now keys s.machine s.commands.items) }
    ensures fails { IfErr result (λ r.
        DebugFails (F.files files.old) (F.faults files.old) (F.faults files.new) name.now script.now r.answer r.name.now) }
    ensures files { F.files files.new ≡ F.files files.old }
    ensures later { F.faults files.old ≤ F.faults files.new }
{
    let text = is_text(name);
    let code = match read_file(alloc, files, name, code_limit(text)) {
        Ok(code) => code,
        Err(answer) => return Err(Declined { answer, name }),
    };
    let lines = match read_file(alloc, files, script, SCRIPT_LIMIT) {
        Ok(lines) => lines,
        Err(answer) => return Err(Declined {
            answer,
            name: script,
        }),
    };
    let machine = match boot_code(alloc, text, code, keys) {
        Ok(machine) => machine,
        Err(answer) => return Err(Declined { answer, name }),
    };
    match commands_in(alloc, lines) {
        Ok(commands) => Ok(Session { machine, commands }),
        Err(answer) => Err(Declined {
            answer,
            name: script,
        }),
    }
}

/// Obeys commands, one after another. It takes no memory.
pub fn obey_all<K: Sink>(
    debug: &mut Debug,
    commands: &[Command],
    out: &mut K,
) -> Result<(), WriteFault>
    ensures obeys { OnOk result (spec.ObeysAll commands.now debug.old debug.new (K.written out.old) (K.written out.new)) }
    ensures breaks { OnErr result (spec.BreaksOffIn commands.now debug.old debug.new (K.written out.old) (K.written out.new)) }
    ensures cause { HasCause (K.faults out.old) (K.faults out.new) result }
{
    let mut rest = commands;
    while let Some((command, more)) = rest.split_first() {
        debug.obey(*command, out)?;
        rest = more;
    }
    Ok(())
}
