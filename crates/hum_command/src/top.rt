// The whole program over any folder and sinks.
ghost use Rattle.std.specs.Prelude.{◌≡◌, ◌≤◌, ℕ, Option, map, string_bytes};
ghost use Rattle.hum_outside.specs.Outside.{Files};
ghost use Rattle.hum_command.specs.Keys.{WithinLimits};
ghost use Rattle.hum_command.specs.Writes.{writes};
ghost use Rattle.hum_command.specs.Call.{call, PutsAll};
ghost use Rattle.hum_command.specs.RunAnswers.{RunAnswers, ChainAnswers};
ghost use Rattle.hum_command.specs.AsmAnswers.{AsmAnswers};
ghost use Rattle.hum_command.specs.LinkAnswers.{LinkAnswers};
ghost use Rattle.hum_command.specs.ExecAnswers.{ExecAnswers};
ghost use Rattle.hum_command.specs.DebugAnswers.{DebugAnswers};
ghost use Rattle.hum_command.specs.Answers.{Answered, Completes, status_of};
ghost use Rattle.hum_command.specs.declared.answer.Answer.{Answer as AnyAnswer};
ghost use Rattle.hum_command.specs.declared.record.Record.{Record as AnyRecord};

use crate::answer::Answer;
use crate::asm::list_file;
use crate::chain::start_chain;
use crate::debug::{Session, obey_all, read_session};
use crate::exec::{booted, run_machine};
use crate::keys::Keys;
use crate::link::link_files;
use crate::load::load_file;
use crate::record::Record;
use crate::report::refuse;
use crate::run::{finish_run, start_file};
use crate::words::{Command, command_of};
use hum_outside::{Folder, Sink, put_all};
use quad_debug::Debug;
use std::alloc::Global;
use vm_devices::WriteFault;

// Runs the text that a file holds.
fn run_file<F: Folder, K: Sink>(
    alloc: Global,
    name: &str,
    keys: Keys,
    files: &mut F,
    out: &mut K,
    err: &mut K,
    last: &mut Record,
) -> Answer
    requires { WithinLimits keys }
    ensures answered { RunAnswers name.now keys result
        (call F.files F.faults K.written K.faults files.old files.new out.old out.new err.old err.new last.old last.new) }
    ensures files { F.files files.new ≡ F.files files.old }
    ensures files_later { F.faults files.old ≤ F.faults files.new }
    ensures out_later { K.faults out.old ≤ K.faults out.new }
    ensures err_later { K.faults err.old ≤ K.faults err.new }
{
    match start_file(alloc, files, name, keys) {
        Ok(run) => {
            let mut run = run;
            let answer = finish_run(&mut run, keys, out, err);
            last.leave_run(run);
            answer
        }
        Err(answer) => {
            refuse(err, &answer, name);
            answer
        }
    }
}

// Runs the text of a chain.
fn run_chain<K: Sink>(
    alloc: Global,
    n: u32,
    keys: Keys,
    out: &mut K,
    err: &mut K,
    last: &mut Record,
) -> Answer
    requires some { 1 ≤ n }
    requires most { n ≤ 2000 }
    requires limits { WithinLimits keys }
    ensures answered { (files : Option Files) (faults : ℕ) → ChainAnswers n keys result
        (call (λ (k : ℕ). files) (λ (k : ℕ). k) K.written K.faults faults faults out.old out.new err.old err.new last.old last.new) }
    ensures out_later { K.faults out.old ≤ K.faults out.new }
    ensures err_later { K.faults err.old ≤ K.faults err.new }
{
    match start_chain(alloc, n, keys) {
        Ok(run) => {
            let mut run = run;
            let answer = finish_run(&mut run, keys, out, err);
            last.leave_run(run);
            answer
        }
        Err(answer) => {
            refuse(err, &answer, "chain");
            answer
        }
    }
}

// Writes bytes that a command has made.
fn put_bytes<K: Sink>(out: &mut K, bytes: &[u8]) -> Answer
    ensures answered { PutsAll result (writes K.written K.faults out.old out.new) bytes.now }
    ensures later { K.faults out.old ≤ K.faults out.new }
{
    match put_all(out, bytes) {
        Ok(_) => Answer::Done,
        Err(_) => Answer::Fault,
    }
}

// Writes the listing of the code that a file holds.
fn asm_to<F: Folder, K: Sink>(
    alloc: Global,
    name: &str,
    files: &mut F,
    out: &mut K,
    err: &mut K,
) -> Answer
    ensures answered { (last : AnyRecord) → AsmAnswers name.now result
        (call F.files F.faults K.written K.faults files.old files.new out.old out.new err.old err.new last last) }
    ensures files { F.files files.new ≡ F.files files.old }
    ensures files_later { F.faults files.old ≤ F.faults files.new }
    ensures out_later { K.faults out.old ≤ K.faults out.new }
    ensures err_later { K.faults err.old ≤ K.faults err.new }
{
    match list_file(alloc, files, name) {
        Err(answer) => {
            refuse(err, &answer, name);
            answer
        }
        Ok(listing) => put_bytes(out, &listing),
    }
}

// Links files, and writes the bytes of the image.
fn link_to<F: Folder, K: Sink>(
    alloc: Global,
    names: &[String],
    files: &mut F,
    out: &mut K,
    err: &mut K,
) -> Answer
    ensures answered { (last : AnyRecord) → LinkAnswers (map string_bytes names.now) result
        (call F.files F.faults K.written K.faults files.old files.new out.old out.new err.old err.new last last) }
    ensures files { F.files files.new ≡ F.files files.old }
    ensures files_later { F.faults files.old ≤ F.faults files.new }
    ensures out_later { K.faults out.old ≤ K.faults out.new }
    ensures err_later { K.faults err.old ≤ K.faults err.new }
{
    match link_files(alloc, files, names) {
        Err(declined) => {
            refuse(err, &declined.answer, declined.name);
            declined.answer
        }
        Ok(bytes) => put_bytes(out, &bytes),
    }
}

// Runs the image that a file holds.
fn exec_file<F: Folder, K: Sink>(
    alloc: Global,
    name: &str,
    keys: Keys,
    files: &mut F,
    out: &mut K,
    err: &mut K,
    last: &mut Record,
) -> Answer
    requires { WithinLimits keys }
    ensures answered { ExecAnswers name.now keys result
        (call F.files F.faults K.written K.faults files.old files.new out.old out.new err.old err.new last.old last.new) }
    ensures files { F.files files.new ≡ F.files files.old }
    ensures files_later { F.faults files.old ≤ F.faults files.new }
    ensures out_later { K.faults out.old ≤ K.faults out.new }
    ensures err_later { K.faults err.old ≤ K.faults err.new }
{
    let image = match load_file(alloc, files, name) {
        Ok(image) => image,
        Err(answer) => {
            refuse(err, &answer, name);
            return answer;
        }
    };
    match booted(alloc, &image, keys) {
        Ok(machine) => {
            let mut machine = machine;
            let answer = run_machine(&mut machine, keys.bound, out, err);
            last.leave_machine(machine);
            answer
        }
        Err(_) => {
            refuse(err, &Answer::NoMemory, name);
            Answer::NoMemory
        }
    }
}

// Obeys the commands of a script.
fn debug_file<F: Folder, K: Sink>(
    alloc: Global,
    name: &str,
    script: &str,
    keys: Keys,
    files: &mut F,
    out: &mut K,
    err: &mut K,
    last: &mut Record,
) -> Answer
    requires { WithinLimits keys }
    ensures answered { DebugAnswers name.now script.now keys result
        (call F.files F.faults K.written K.faults files.old files.new out.old out.new err.old err.new last.old last.new) }
    ensures files { F.files files.new ≡ F.files files.old }
    ensures files_later { F.faults files.old ≤ F.faults files.new }
    ensures out_later { K.faults out.old ≤ K.faults out.new }
    ensures err_later { K.faults err.old ≤ K.faults err.new }
{
    let Session { machine, commands } = match read_session(alloc, files, name, script, keys) {
        Ok(session) => session,
        Err(declined) => {
            refuse(err, &declined.answer, declined.name);
            return declined.answer;
        }
    };
    let Ok(debug) = Debug::start(alloc, machine) else {
        refuse(err, &Answer::NoMemory, name);
        return Answer::NoMemory;
    };
    let mut debug = debug;
    let obeyed = obey_all(&mut debug, &commands, out);
    last.leave_machine(debug.end());
    match obeyed {
        Ok(()) => Answer::Done,
        Err(WriteFault) => Answer::Fault,
    }
}

// Does what the words say.
fn answer<F: Folder, K: Sink>(
    alloc: Global,
    words: &[String],
    files: &mut F,
    out: &mut K,
    err: &mut K,
    last: &mut Record,
) -> Answer
    ensures answered { Answered (map string_bytes words.now) result
        (call F.files F.faults K.written K.faults files.old files.new out.old out.new err.old err.new last.old last.new) }
    ensures files { F.files files.new ≡ F.files files.old }
    ensures files_later { F.faults files.old ≤ F.faults files.new }
    ensures out_later { K.faults out.old ≤ K.faults out.new }
    ensures err_later { K.faults err.old ≤ K.faults err.new }
{
    match command_of(words) {
        None => {
            refuse(err, &Answer::Usage, "");
            Answer::Usage
        }
        Some(Command::Run(name, keys)) => run_file(alloc, name, keys, files, out, err, last),
        Some(Command::Asm(name)) => asm_to(alloc, name, files, out, err),
        Some(Command::Link(names)) => link_to(alloc, names, files, out, err),
        Some(Command::Exec(name, keys)) => exec_file(alloc, name, keys, files, out, err, last),
        Some(Command::Debug(name, script, keys)) => {
            debug_file(alloc, name, script, keys, files, out, err, last)
        }
        Some(Command::Chain(n, keys)) => run_chain(alloc, n, keys, out, err, last),
    }
}

/// Does what the words say over these files and sinks, and gives the exit status; `last` is left the run or the machine, if one was started.
///
/// The words are `run FILE KEYS`, `asm FILE`, `link FILE FILE ..`, `exec FILE KEYS`, `debug FILE SCRIPT KEYS` or `chain N KEYS`. The statuses,
/// their causes and what each leaves are the definitions of specs/Answers: 0 done, 1 the words have no form, 2 a file could not be read, 3 a
/// text is refused, 4 a write failed, 5 the root ran out, 6 the bound is reached, 7 no memory, 9 an event failed, 10 an image, a module or
/// linking is refused, 11 a script is refused.
///
/// For `run` and `chain`, out has exactly the output of the configuration that the deliveries of the machine's journal lead to, and err the
/// lines of the events that failed and those that end the run; the run that is left stands for that configuration.
pub fn humus_main<F: Folder, K: Sink>(
    alloc: Global,
    words: &[String],
    files: &mut F,
    out: &mut K,
    err: &mut K,
    last: &mut Record,
) -> u8
    // The status is that of an answer that came by its cause, and left what it says.
    ensures answered { (answer : AnyAnswer) × (result ≡ status_of answer) × Answered (map string_bytes words.now) answer
        (call F.files F.faults K.written K.faults files.old files.new out.old out.new err.old err.new last.old last.new) }

    // Where nothing fails, what the words ask for is done or refused.
    ensures completes { Completes (map string_bytes words.now) result
        (call F.files F.faults K.written K.faults files.old files.new out.old out.new err.old err.new last.old last.new) }

    // The folder tells the files that it told, and no count fell.
    ensures files { F.files files.new ≡ F.files files.old }
    ensures files_later { F.faults files.old ≤ F.faults files.new }
    ensures out_later { K.faults out.old ≤ K.faults out.new }
    ensures err_later { K.faults err.old ≤ K.faults err.new }
{
    let answer = answer(alloc, words, files, out, err, last);
    answer.status()
}
