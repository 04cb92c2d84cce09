// Whole files and whole texts, over any folder and sink.
ghost use Rattle.std.specs.Prelude.{◌≡◌, ◌⊎◌, ◌<◌, ◌≤◌, ℕ, List, length, Some, None, IfOk, OnOk, OnErr, IsErr, IsErrOf, vec_len};
ghost use Rattle.std.specs.List.{flat_map};
ghost use Rattle.hum_outside.specs.Outside.{told, Rose, HasCause, AppendsFront, appended};
ghost use Rattle.hum_outside.specs.declared.calls.ReadError.TheVariants.{NoMemory, Failed as Fault};

use crate::{Failed, Folder, Sink};
use std::alloc::{AllocError, Global};

/// Why a file was not read.
#[derive(Clone, Copy, Debug, PartialEq, Eq)]
pub enum ReadError {
    /// No memory was left for its bytes.
    NoMemory,
    /// The folder failed, or told that there is no such file.
    Failed,
    /// The file has more bytes than were asked for.
    TooLong,
}

impl From<AllocError> for ReadError {
    ghost from_gives = { λ _ e. e ≡ NoMemory };

    fn from(_: AllocError) -> Self {
        ReadError::NoMemory
    }
}

impl From<Failed> for ReadError {
    ghost from_gives = { λ _ e. e ≡ Fault };

    fn from(_: Failed) -> Self {
        ReadError::Failed
    }
}

/// Appends all of the bytes.
///
/// `Failed` comes only where the sink's count of faults rose, and then a front of the bytes was appended.
pub fn put_all<K: Sink>(sink: &mut K, bytes: &[u8]) -> Result<(), Failed>
    ensures all { OnOk result (K.written sink.new ≡ appended (K.written sink.old) bytes.now) }
    ensures front { OnErr result (AppendsFront (K.written sink.old) (K.written sink.new) bytes.now) }
    ensures cause { HasCause (K.faults sink.old) (K.faults sink.new) result }
{
    let mut count = 0;
    while count < bytes.len() {
        count += sink.put(&bytes[count..])?;
    }
    Ok(())
}

/// Appends all of the parts, one after another, as a line is made of words and numbers.
///
/// `Failed` comes only where the sink's count of faults rose, and then a front of the parts' bytes was appended.
pub fn put_parts<K: Sink>(sink: &mut K, parts: &[&[u8]]) -> Result<(), Failed>
    ensures all { OnOk result (K.written sink.new ≡ appended (K.written sink.old) (flat_map (λ part. part.now) parts.now)) }
    ensures front { OnErr result (AppendsFront (K.written sink.old) (K.written sink.new) (flat_map (λ part. part.now) parts.now)) }
    ensures cause { HasCause (K.faults sink.old) (K.faults sink.new) result }
{
    for part in parts {
        put_all(sink, part)?;
    }
    Ok(())
}

/// Reads the file `name`, of at most `limit` bytes, from its first byte to its last.
///
/// `NoMemory` may come at any moment. `Failed` comes only where the folder's count of faults rose, or where the file is
/// told to be absent, which leaves the count. Where the file is told, `TooLong` comes exactly where it has more than
/// `limit` bytes and neither of the two came before. Whatever the answer, the folder tells the files that it told, and
/// its count has not fallen.
pub fn read_all<F: Folder>(
    alloc: Global,
    files: &mut F,
    name: &str,
    limit: u64,
) -> Result<Vec<u8>, ReadError>
    ensures bytes { (bytes : List ℕ) → told (F.files files.old) name.now ≡ Some (Some bytes) →
        IfOk result (λ v. v.items ≡ bytes) }
    ensures within { IfOk result (λ v. vec_len v ≤ limit) }

    // Only a file of more bytes is too long, and none of more bytes is read.
    ensures too_long { (bytes : List ℕ) → told (F.files files.old) name.now ≡ Some (Some bytes) →
        IsErrOf result ReadError.TooLong → limit < length bytes }
    ensures longer { (bytes : List ℕ) → told (F.files files.old) name.now ≡ Some (Some bytes) →
        limit < length bytes → IsErr result }

    ensures failed { IsErrOf result ReadError.Failed →
        Rose (F.faults files.old) (F.faults files.new) ⊎ (told (F.files files.old) name.now ≡ Some None) }
    ensures absent { told (F.files files.old) name.now ≡ Some None →
        IsErrOf result ReadError.Failed ⊎ IsErrOf result ReadError.NoMemory }
    ensures kept { told (F.files files.old) name.now ≡ Some None → F.faults files.new ≡ F.faults files.old }

    ensures later { F.faults files.old ≤ F.faults files.new }
    ensures files { F.files files.new ≡ F.files files.old }
{
    let mut bytes = Vec::new(alloc);
    let mut at = 0;
    let mut piece = [0u8; 4096];
    loop {
        let count = files.fetch(name, at, &mut piece)?;
        if count == 0 {
            return Ok(bytes);
        }
        if count as u64 > limit - at {
            return Err(ReadError::TooLong);
        }
        bytes.extend_from_slice(&piece[..count])?;
        at += count as u64;
    }
}
