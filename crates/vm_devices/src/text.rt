// Texts of words that name no pair.

ghost use Rattle.std.specs.Prelude.{◌≡◌, None, is_some, if◌then◌else◌, OnOk, OnErr, codes};
ghost use Rattle.std.specs.Fmt.{signed_decimal};
ghost use Rattle.hum_outside.specs.Outside.{HasCause, AppendsFront, appended};
ghost use Rattle.cap_words.specs.Words.{number_of};
ghost use Rattle.cap_words.specs.Seen.{seen, cell_seen};
ghost use Rattle.quad_memory.specs.Cells.{actor_at};
ghost use Rattle.vm_turn.specs.Piece.{numbers_to, symbol_text, cell_text};
ghost use Rattle.vm_devices.specs.Texts.{leaf_text};

use crate::cells::cell;
use crate::name::{MOST_BYTES, read_name};
use cap_words::{Quad, Word, is_same};
use hum_outside::{Failed, Sink, put_all, put_parts};
use itoa::Buffer;
use quad_memory::Quads;

fn put_number<K: Sink>(number: i32, out: &mut K) -> Result<(), Failed>
    ensures all { OnOk result (K.written out.new ≡ appended (K.written out.old) (signed_decimal number)) }
    ensures front { OnErr result (AppendsFront (K.written out.old) (K.written out.new) (signed_decimal number)) }
    ensures cause { HasCause (K.faults out.old) (K.faults out.new) result }
{
    let mut buffer = Buffer::new();
    put_all(out, buffer.format(number).as_bytes())
}

// Writes a symbol, by the list of its name's bytes.
fn put_symbol<K: Sink>(quads: &Quads, list: Word, out: &mut K) -> Result<(), Failed>
    ensures all { OnOk result (K.written out.new ≡ appended (K.written out.old) (symbol_text (numbers_to (seen quads.now.store) 128 list))) }
    ensures front { OnErr result (AppendsFront (K.written out.old) (K.written out.new) (symbol_text (numbers_to (seen quads.now.store) 128 list))) }
    ensures cause { HasCause (K.faults out.old) (K.faults out.new) result }
{
    let mut name = [0; MOST_BYTES];
    match read_name(quads, list, &mut name) {
        Some(len) => put_parts(out, &[b"#", &name[..len]]),
        None => put_all(out, b"^"),
    }
}

// Writes a cell that is no pair.
fn put_cell<K: Sink>(quads: &Quads, q: &Quad, out: &mut K) -> Result<(), Failed>
    ensures all { OnOk result (K.written out.new ≡ appended (K.written out.old) (cell_text (seen quads.now.store) q.now)) }
    ensures front { OnErr result (AppendsFront (K.written out.old) (K.written out.new) (cell_text (seen quads.now.store) q.now)) }
    ensures cause { HasCause (K.faults out.old) (K.faults out.new) result }
{
    if is_same(q.t, Word::SYMBOL_T) {
        put_symbol(quads, q.x, out)
    } else if is_same(q.t, Word::FUNC_T) {
        put_all(out, b"\\")
    } else if is_same(q.t, Word::BLOCK_T) {
        put_all(out, b"[]")
    } else {
        put_all(out, b"^")
    }
}

// The text of an actor's word, and of any other that programs cannot open.
fn opaque_text(quads: &Quads, word: Word) -> &'static [u8]
    ensures { result.now ≡ (if is_some (actor_at quads.now.store word) then codes "@" else codes "^") }
{
    if quads.actor(word).is_some() {
        b"@"
    } else {
        b"^"
    }
}

// The text of a word that is no number and names no cell that programs read.
fn fixed_text(quads: &Quads, word: Word) -> &'static [u8]
    requires number { number_of word ≡ None }
    requires cell { cell_seen (seen quads.now.store) word ≡ None }
    ensures { result.now ≡ leaf_text (seen quads.now.store) word }
{
    if is_same(word, Word::UNDEF) {
        b"?"
    } else if is_same(word, Word::NIL) {
        b"NIL"
    } else if is_same(word, Word::FALSE) {
        b"FALSE"
    } else if is_same(word, Word::TRUE) {
        b"TRUE"
    } else {
        opaque_text(quads, word)
    }
}

/// Writes the text of a word that names no pair.
pub(crate) fn put_leaf<K: Sink>(quads: &Quads, word: Word, out: &mut K) -> Result<(), Failed>
    ensures all { OnOk result (K.written out.new ≡ appended (K.written out.old) (leaf_text (seen quads.now.store) word)) }
    ensures front { OnErr result (AppendsFront (K.written out.old) (K.written out.new) (leaf_text (seen quads.now.store) word)) }
    ensures cause { HasCause (K.faults out.old) (K.faults out.new) result }
{
    if let Some(number) = word.number() {
        return put_number(number, out);
    }
    match cell(quads, word) {
        Some(q) => put_cell(quads, &q, out),
        None => put_all(out, fixed_text(quads, word)),
    }
}
