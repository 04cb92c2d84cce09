// Lists of characters.

ghost use Rattle.std.specs.Prelude.{◌≡◌, true, is_some, OnOk, OnErr};
ghost use Rattle.hum_outside.specs.Outside.{HasCause, AppendsFront, appended};
ghost use Rattle.cap_words.specs.Seen.{seen};
ghost use Rattle.vm_devices.specs.Texts.{IsSmall, scalar_of, speech_of, speech_text};

use crate::cells::pair;
use cap_words::{Word, is_same};
use hum_outside::{Failed, Sink, put_all};
use quad_memory::Quads;

// The character that a word is the number of.
fn character(word: Word) -> Option<char>
    ensures { result ≡ scalar_of word }
{
    let number = word.number()?;
    let code = u32::try_from(number).ok()?;
    char::from_u32(code)
}

// Whether a word is a list of characters.
pub(crate) fn is_speech(quads: &Quads, word: Word) -> bool
    requires { IsSmall (seen quads.now.store) word }
    ensures { result ≡ is_some (speech_of (seen quads.now.store) word) }
{
    let mut rest = word;
    while let Some(q) = pair(quads, rest) {
        if character(q.x).is_none() {
            return false;
        }
        rest = q.y;
    }
    is_same(rest, Word::NIL)
}

// Writes a list of characters in UTF-8.
pub(crate) fn put_speech<K: Sink>(quads: &Quads, word: Word, out: &mut K) -> Result<(), Failed>
    requires small { IsSmall (seen quads.now.store) word }
    requires speech { is_some (speech_of (seen quads.now.store) word) ≡ true }
    ensures all { OnOk result (K.written out.new ≡ appended (K.written out.old) (speech_text (seen quads.now.store) word)) }
    ensures front { OnErr result (AppendsFront (K.written out.old) (K.written out.new) (speech_text (seen quads.now.store) word)) }
    ensures cause { HasCause (K.faults out.old) (K.faults out.new) result }
{
    let mut rest = word;
    while let Some(q) = pair(quads, rest) {
        let Some(c) = character(q.x) else {
            unreachable!();
        };
        put_all(out, c.encode_utf8(&mut [0; 4]).as_bytes())?;
        rest = q.y;
    }
    Ok(())
}
