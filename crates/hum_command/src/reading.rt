// Files as they are read.
ghost use Rattle.std.specs.Prelude.{◌≡◌, ◌<◌, ◌≤◌, ℕ, List, length, IfOk, IfErr, MatchOption};
ghost use Rattle.hum_outside.specs.Outside.{told};
ghost use Rattle.hum_command.specs.Texts.{IsText, FileFails};

use crate::answer::Answer;
use hum_outside::{Folder, ReadError, read_all};
use std::alloc::Global;

/// The bytes of a file, or None where it has more than the limit; else the answer of a file that could not be read.
pub fn read_file<F: Folder>(
    alloc: Global,
    files: &mut F,
    name: &str,
    limit: u64,
) -> Result<Option<Vec<u8>>, Answer>
    ensures read { IfOk result (λ read. (text : List ℕ) × IsText (told (F.files files.old) name.now) text ×
        MatchOption read (limit < length text) (λ bytes. (bytes.items ≡ text) × (length text ≤ limit))) }
    ensures fails { IfErr result (FileFails (F.faults files.old) (F.faults files.new) (told (F.files files.old) name.now)) }
    ensures files { F.files files.new ≡ F.files files.old }
    ensures later { F.faults files.old ≤ F.faults files.new }
{
    match read_all(alloc, files, name, limit) {
        Ok(bytes) => Ok(Some(bytes)),
        Err(ReadError::TooLong) => Ok(None),
        Err(ReadError::Failed) => Err(Answer::Unread),
        Err(ReadError::NoMemory) => Err(Answer::NoMemory),
    }
}
