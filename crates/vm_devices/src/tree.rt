// Walks over a word's tree.

ghost use Rattle.std.specs.Prelude.{◌≡◌, ◌<◌, ◌≤◌, ◌+◌, [], ◌∷◌, ◌++◌, is_some, vec_len, vec_capacity, OnOk, OnErr};
ghost use Rattle.hum_outside.specs.Outside.{HasCause, AppendsFront, appended};
ghost use Rattle.cap_words.specs.Seen.{seen};
ghost use Rattle.vm_turn.specs.Piece.{most_leaves, tree};
ghost use Rattle.vm_devices.specs.Texts.{IsSmall, text_of, opening, item_text};

use crate::cells::pair;
use crate::text::put_leaf;
use cap_words::Word;
use hum_outside::{Failed, Sink, put_all};
use quad_memory::Quads;

/// A device takes trees of so many leaves.
pub(crate) const MOST_LEAVES: usize = 65_536;

// Pushes a word where there is room.
fn push(stack: &mut Vec<Word>, word: Word)
    requires { vec_len stack.old < vec_capacity stack.old }
    ensures items { stack.new.items ≡ stack.old.items ++ word ∷ [] }
    ensures len { vec_len stack.new ≡ vec_len stack.old + 1 }
    ensures capacity { vec_capacity stack.old ≤ vec_capacity stack.new }
{
    match stack.push(word) {
        Ok(()) => {}
        Err(_) => unreachable!(),
    }
}

// Whether a word's tree is a finite one that is not too large. `count` is the number of leaves that the tree has at least: one more than
// the pairs that were found.
pub(crate) fn is_small(quads: &Quads, word: Word, stack: &mut Vec<Word>) -> bool
    requires { most_leaves ≤ vec_capacity stack.old }
    ensures small { result ≡ is_some (tree (seen quads.now.store) word) }
    ensures capacity { most_leaves ≤ vec_capacity stack.new }
{
    stack.clear();
    let mut next = word;
    let mut count = 1;
    loop {
        match pair(quads, next) {
            Some(q) => {
                if count == MOST_LEAVES {
                    return false;
                }
                count += 1;
                push(stack, q.y);
                next = q.x;
            }
            None => match stack.pop() {
                Some(tail) => next = tail,
                None => return true,
            },
        }
    }
}

// Writes what stands in front of a pair: along the right spine of another one, nothing.
fn put_opening<K: Sink>(inside: bool, out: &mut K) -> Result<(), Failed>
    ensures all { OnOk result (K.written out.new ≡ appended (K.written out.old) (opening inside)) }
    ensures front { OnErr result (AppendsFront (K.written out.old) (K.written out.new) (opening inside)) }
    ensures cause { HasCause (K.faults out.old) (K.faults out.new) result }
{
    if inside {
        return Ok(());
    }
    put_all(out, b"(")
}

// Writes a word that names no pair, and closes the pair whose spine it ends.
fn put_item<K: Sink>(quads: &Quads, word: Word, inside: bool, out: &mut K) -> Result<(), Failed>
    ensures all { OnOk result (K.written out.new ≡ appended (K.written out.old) (item_text (seen quads.now.store) inside word)) }
    ensures front { OnErr result (AppendsFront (K.written out.old) (K.written out.new) (item_text (seen quads.now.store) inside word)) }
    ensures cause { HasCause (K.faults out.old) (K.faults out.new) result }
{
    put_leaf(quads, word, out)?;
    if inside { put_all(out, b")") } else { Ok(()) }
}

// Writes the text of a word's tree. The stack holds the tails of the pairs that are open, the innermost at its top.
pub(crate) fn put_tree<K: Sink>(
    quads: &Quads,
    word: Word,
    stack: &mut Vec<Word>,
    out: &mut K,
) -> Result<(), Failed>
    requires small { IsSmall (seen quads.now.store) word }
    requires capacity { most_leaves ≤ vec_capacity stack.old }
    ensures all { OnOk result (K.written out.new ≡ appended (K.written out.old) (text_of (seen quads.now.store) word)) }
    ensures front { OnErr result (AppendsFront (K.written out.old) (K.written out.new) (text_of (seen quads.now.store) word)) }
    ensures cause { HasCause (K.faults out.old) (K.faults out.new) result }
    ensures capacity { most_leaves ≤ vec_capacity stack.new }
{
    stack.clear();
    let mut next = word;
    let mut inside = false;
    loop {
        match pair(quads, next) {
            Some(q) => {
                put_opening(inside, out)?;
                push(stack, q.y);
                next = q.x;
                inside = false;
            }
            None => {
                put_item(quads, next, inside, out)?;
                match stack.pop() {
                    Some(tail) => {
                        put_all(out, b", ")?;
                        next = tail;
                        inside = true;
                    }
                    None => return Ok(()),
                }
            }
        }
    }
}
