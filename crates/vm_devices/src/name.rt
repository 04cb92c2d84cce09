// Names of symbols.

ghost use Rattle.std.specs.Prelude.{◌≡◌, ◌≤◌, ◌&&◌, not, take, length, option_map, IfSome};
ghost use Rattle.cap_words.specs.Words.{W};
ghost use Rattle.cap_words.specs.Seen.{seen};
ghost use Rattle.cap_words.specs.Text.{is_run_byte};
ghost use Rattle.vm_turn.specs.Piece.{numbers_to};
ghost use Rattle.vm_devices.specs.Texts.{run_byte_of, run_of};

use crate::cells::pair;
use cap_words::{Word, is_same};
use quad_memory::Quads;

/// The longest name.
pub(crate) const MOST_BYTES: usize = 128;

fn is_run_byte(byte: u8) -> bool
    ensures { result ≡ is_run_byte byte }
{
    byte >= 33 && byte <= 126 && !b"()[],.=:\"$\\#".contains(&byte)
}

// The byte of a run that a word is the number of.
fn run_byte(word: Word) -> Option<u8>
    ensures { result ≡ run_byte_of word }
{
    let number = word.number()?;
    let byte = u8::try_from(number).ok()?;
    if is_run_byte(byte) { Some(byte) } else { None }
}

// Writes the bytes of a name in front of the buffer and says how many there are, or None where the list is no name.
pub(crate) fn read_name(quads: &Quads, list: Word, name: &mut [u8]) -> Option<usize>
    requires { length name.old ≡ 128 }
    ensures name { option_map (λ n. take n name.new) result ≡ run_of (numbers_to (seen quads.now.store) 128 list) }
    ensures within { IfSome result (λ n. n ≤ length name.new) }
{
    let mut rest = list;
    let mut len = 0;
    while let Some(q) = pair(quads, rest) {
        if len == MOST_BYTES {
            return None;
        }
        let byte = run_byte(q.x)?;
        name[len] = byte;
        len += 1;
        rest = q.y;
    }
    if len > 0 && is_same(rest, Word::NIL) {
        Some(len)
    } else {
        None
    }
}
