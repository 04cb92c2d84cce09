//! `humus run FILE KEYS` runs a Humus text, and `humus chain N KEYS` a generated one; `humus asm FILE` writes the code of a text as assembly;
//! `humus link FILE FILE ..` links modules of assembly to an image; `humus exec FILE KEYS` runs an image, or a module that links alone; `humus
//! debug FILE SCRIPT KEYS` lets a script watch such a run.
//!
//! `humus_main` does what the words say over any folder and sinks; `main` calls it with the real ones.
#![tactic(auto)]

use hum_command::{Record, humus_main};
use hum_outside::{HostFolder, HostSink};
use std::process::ExitCode;
use std::{env, io};

// The status where the runtime does not hand the words as texts.
const NO_WORDS: u8 = 8;

// The words after the program's name.
fn words_of(rt: &HostRuntime) -> io::Result<Vec<String>> {
    let mut words = Vec::new(rt.alloc());
    for word in env::args(rt)?.skip(1) {
        words.push(word)?;
    }
    Ok(words)
}

fn main(rt: HostRuntime) -> ExitCode {
    let Ok(words) = words_of(&rt) else {
        return ExitCode::from(NO_WORDS);
    };
    let mut files = HostFolder::new(&rt);
    let mut out = HostSink::out(&rt);
    let mut err = HostSink::err(&rt);
    let mut last = Record::empty();
    ExitCode::from(humus_main(
        rt.alloc(),
        &words,
        &mut files,
        &mut out,
        &mut err,
        &mut last,
    ))
}
