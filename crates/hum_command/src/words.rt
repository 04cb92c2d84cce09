// The words of the program.
ghost use Rattle.std.specs.Prelude.{◌≡◌, map, IfSome, string_bytes};
ghost use Rattle.std.specs.Option.{option_map};
ghost use Rattle.std.specs.List.{list_all};
ghost use Rattle.hum_command.specs.Words as spec;

use crate::keys::{DEBUG_KEYS, Keys, RUN_KEYS, keys_of, number_of};

/// What the words ask for.
#[derive(Clone, Copy, Debug, PartialEq, Eq)]
pub enum Command<'a> {
    /// `run FILE KEYS`: a text is run.
    Run(&'a str, Keys),
    /// `asm FILE`: the listing of a file's code is written.
    Asm(&'a str),
    /// `link FILE FILE ..`: 1 to 64 modules are linked.
    Link(&'a [String]),
    /// `exec FILE KEYS`: an image or a module is run.
    Exec(&'a str, Keys),
    /// `debug FILE SCRIPT KEYS`: a machine obeys the commands of a script.
    Debug(&'a str, &'a str, Keys),
    /// `chain N KEYS`: the text of a chain of N actors is run.
    Chain(u32, Keys),
}

fn are_files(words: &[String]) -> bool
    ensures { result ≡ list_all spec.is_file (map string_bytes words.now) }
{
    match words {
        [] => true,
        [word, more @ ..] => !word.is_empty() && are_files(more),
    }
}

fn link_of(words: &[String]) -> Option<Command<'_>>
    ensures value { option_map spec.request result ≡ spec.link_of (map string_bytes words.now) }
    ensures limits { IfSome result (λ command. spec.KeysFit (spec.request command)) }
{
    if words.len() >= 1 && words.len() <= 64 && are_files(words) {
        Some(Command::Link(words))
    } else {
        None
    }
}

fn asm_of(words: &[String]) -> Option<Command<'_>>
    ensures value { option_map spec.request result ≡ spec.asm_of (map string_bytes words.now) }
    ensures limits { IfSome result (λ command. spec.KeysFit (spec.request command)) }
{
    match words {
        [name] if !name.is_empty() => Some(Command::Asm(name.as_str())),
        _ => None,
    }
}

fn run_of(words: &[String]) -> Option<Command<'_>>
    ensures value { option_map spec.request result ≡ spec.run_of (map string_bytes words.now) }
    ensures limits { IfSome result (λ command. spec.KeysFit (spec.request command)) }
{
    match words {
        [name, keys @ ..] if !name.is_empty() => match keys_of(&RUN_KEYS, keys) {
            Some(keys) => Some(Command::Run(name.as_str(), keys)),
            None => None,
        },
        _ => None,
    }
}

fn exec_of(words: &[String]) -> Option<Command<'_>>
    ensures value { option_map spec.request result ≡ spec.exec_of (map string_bytes words.now) }
    ensures limits { IfSome result (λ command. spec.KeysFit (spec.request command)) }
{
    match words {
        [name, keys @ ..] if !name.is_empty() => match keys_of(&RUN_KEYS, keys) {
            Some(keys) => Some(Command::Exec(name.as_str(), keys)),
            None => None,
        },
        _ => None,
    }
}

fn debug_of(words: &[String]) -> Option<Command<'_>>
    ensures value { option_map spec.request result ≡ spec.debug_of (map string_bytes words.now) }
    ensures limits { IfSome result (λ command. spec.KeysFit (spec.request command)) }
{
    match words {
        [name, script, keys @ ..] if !name.is_empty() && !script.is_empty() => {
            match keys_of(&DEBUG_KEYS, keys) {
                Some(keys) => Some(Command::Debug(name.as_str(), script.as_str(), keys)),
                None => None,
            }
        }
        _ => None,
    }
}

fn chain_of(words: &[String]) -> Option<Command<'_>>
    ensures value { option_map spec.request result ≡ spec.chain_of (map string_bytes words.now) }
    ensures limits { IfSome result (λ command. spec.KeysFit (spec.request command)) }
{
    let [number, keys @ ..] = words else {
        return None;
    };
    let n = number_of(number.as_bytes())?;
    if n < 1 || n > 2000 {
        return None;
    }
    match keys_of(&RUN_KEYS, keys) {
        Some(keys) => Some(Command::Chain(n, keys)),
        None => None,
    }
}

/// The command that the words after the program's name ask for, or None where they have no form.
pub fn command_of(words: &[String]) -> Option<Command<'_>>
    ensures value { option_map spec.request result ≡ spec.request_of (map string_bytes words.now) }
    ensures limits { IfSome result (λ command. spec.KeysFit (spec.request command)) }
{
    match words {
        [] => None,
        [word, more @ ..] => match word.as_str() {
            "run" => run_of(more),
            "asm" => asm_of(more),
            "link" => link_of(more),
            "exec" => exec_of(more),
            "debug" => debug_of(more),
            "chain" => chain_of(more),
            _ => None,
        },
    }
}
