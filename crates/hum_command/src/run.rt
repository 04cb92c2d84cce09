// The command `run`: the run of a text.
ghost use Rattle.std.specs.Prelude.{◌≡◌, ◌≤◌, IfOk, IfErr};
ghost use Rattle.hum_outside.specs.Outside.{told};
ghost use Rattle.hum_syntax.specs.Forms.{Bytes};
ghost use Rattle.hum_front.specs.Accepted.{Fails};
ghost use Rattle.hum_front.specs.declared.places.LineColumn.{LineColumn as APlace};
ghost use Rattle.hum_run.specs.Run.{IsStart};
ghost use Rattle.hum_command.specs.Writes.{writes};
ghost use Rattle.hum_command.specs.Texts.{IsText};
ghost use Rattle.hum_command.specs.Keys.{WithinLimits};
ghost use Rattle.hum_command.specs.Grants.{grant_of, lanes_of};
ghost use Rattle.hum_command.specs.TextRuns.{StartsText, EndsText};
ghost use Rattle.hum_command.specs.TextRefusals.{IsPlace, TextFails, StartFails};

use crate::answer::Answer;
use crate::ending::end_run;
use crate::keys::Keys;
use crate::reading::read_file;
use crate::refusal::{TextCause, TextRefusal};
use hum_front::{StartError, line_column, name_at};
use hum_outside::{Folder, Sink};
use hum_run::Run;
use std::alloc::Global;

/// The most bytes that a text may have.
pub const TEXT_LIMIT: u64 = 1_048_576;

// The answer for a text in which something is wrong at a byte.
fn refused_at(text: &[u8], at: u32, cause: TextCause) -> Answer
    ensures { (place : APlace) × IsPlace text.now at place × (result ≡ Answer.TextRefused (TextRefusal.At place cause)) }
{
    Answer::TextRefused(TextRefusal::At(line_column(text, at as usize), cause))
}

/// The answer for a text that is refused, or for which there was no memory.
pub fn refused(alloc: Global, text: &[u8], error: StartError) -> Answer
    requires { Fails text.now error }
    ensures { TextFails text.now result }
{
    match error {
        StartError::NoMemory => Answer::NoMemory,
        StartError::TooLong => Answer::TextRefused(TextRefusal::TooLong),
        StartError::Lex(why) => refused_at(text, why.at, TextCause::Tokens(why.cause)),
        StartError::Parse { at } => refused_at(text, at, TextCause::Tree),
        StartError::Scope(why) => match name_at(text, why.at as usize).to_vec(alloc) {
            Ok(name) => refused_at(text, why.at, TextCause::Name(why.cause, name)),
            Err(_) => Answer::NoMemory,
        },
    }
}

/// The run of a text with these keys before its first turn; else the answer for the text.
pub fn start_text(alloc: Global, text: &[u8], keys: Keys) -> Result<Run, Answer>
    requires { WithinLimits keys }
    ensures starts { IfOk result (StartsText text.now keys) }
    ensures fails { IfErr result (TextFails text.now) }
{
    match Run::start(alloc, text, keys.grant(), keys.in_flight()) {
        Ok(run) => {
            let _image = run.sim().compiled().image();
            Ok(run)
        }
        Err(error) => Err(refused(alloc, text, error)),
    }
}

/// The run of the text that a file holds. A file of more than 1,048,576 bytes is refused before its text is looked at.
pub fn start_file<F: Folder>(
    alloc: Global,
    files: &mut F,
    name: &str,
    keys: Keys,
) -> Result<Run, Answer>
    requires { WithinLimits keys }
    ensures starts { IfOk result (λ run. (text : Bytes) × IsText (told (F.files files.old) name.now) text × StartsText text keys run) }
    ensures fails { IfErr result (StartFails (F.faults files.old) (F.faults files.new) (told (F.files files.old) name.now)) }
    ensures files { F.files files.new ≡ F.files files.old }
    ensures later { F.faults files.old ≤ F.faults files.new }
{
    let text = match read_file(alloc, files, name, TEXT_LIMIT) {
        Ok(Some(text)) => text,
        Ok(None) => return Err(Answer::TextRefused(TextRefusal::TooLong)),
        Err(answer) => return Err(answer),
    };
    start_text(alloc, &text, keys)
}

/// Takes the turns of a run that was started, and writes its lines.
pub fn finish_run<K: Sink>(run: &mut Run, keys: Keys, out: &mut K, err: &mut K) -> Answer
    requires { IsStart (grant_of keys) (lanes_of keys) run.old }
    ensures ends { (text : Bytes) → StartsText text keys run.old → EndsText text keys result run.new
        (writes K.written K.faults out.old out.new) (writes K.written K.faults err.old err.new) }
    ensures out_later { K.faults out.old ≤ K.faults out.new }
    ensures err_later { K.faults err.old ≤ K.faults err.new }
{
    let stop = match run.advance(keys.bound, out, err) {
        Ok(stop) => stop,
        Err(_) => return Answer::Fault,
    };
    end_run(err, stop, run.report())
}
