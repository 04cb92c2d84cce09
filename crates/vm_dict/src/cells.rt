// The cells that lists are made of.

ghost use Rattle.std.specs.Prelude.{◌≡◌, ◌<◌, [], ◌∷◌};
ghost use Rattle.cap_words.specs.Seen.{OpenSlot, seen, cell_seen};
ghost use Rattle.cap_words.specs.Store.{used};
ghost use Rattle.instr_table.specs.Lists.{pair_in, pair_quad};
ghost use Rattle.instr_table.specs.Dictionary.{entry_in, entry_quad};
ghost use Rattle.instr_table.specs.Deque.{deque_quad};
ghost use Rattle.vm_dict.specs.Made.{Takes};
ghost use Rattle.vm_dict.specs.Calls.{next_word};

use cap_words::{Quad, Word, is_same};
use quad_memory::Quads;

/// A longer list counts as its first cells.
pub(crate) const LONGEST: u32 = 4095;

// The quad under a word.
#[tactic(auto, using(crate::proofs::Reading::reading))]
pub(crate) fn cell(quads: &Quads, w: Word) -> Option<Quad>
    ensures { result ≡ cell_seen (seen quads.now.store) w }
{
    quads.read(w)
}

// The words of an entry.
pub(crate) fn entry(quads: &Quads, w: Word) -> Option<Quad>
    ensures { result ≡ entry_in (cell_seen (seen quads.now.store) w) }
{
    let q = cell(quads, w)?;
    if is_same(q.t, Word::DICT_T) {
        Some(q)
    } else {
        None
    }
}

// The words of a pair.
pub(crate) fn pair(quads: &Quads, w: Word) -> Option<Quad>
    ensures { result ≡ pair_in (cell_seen (seen quads.now.store) w) }
{
    let q = cell(quads, w)?;
    if is_same(q.t, Word::PAIR_T) {
        Some(q)
    } else {
        None
    }
}

// Takes a quad for a cell and gives its word.
fn take(quads: &mut Quads, q: &Quad) -> Word
    requires { used quads.old.store < quads.old.room }
    ensures cells { Takes quads.old quads.new (OpenSlot q.now ∷ []) }
    ensures word { result ≡ next_word quads.old }
{
    quads.take(*q)
}

// Takes a quad for an entry.
pub(crate) fn take_entry(quads: &mut Quads, key: Word, value: Word, next: Word) -> Word
    requires { used quads.old.store < quads.old.room }
    ensures cells { Takes quads.old quads.new (OpenSlot (entry_quad key value next) ∷ []) }
    ensures word { result ≡ next_word quads.old }
{
    let q = Quad {
        t: Word::DICT_T,
        x: key,
        y: value,
        z: next,
    };
    take(quads, &q)
}

// Takes a quad for a pair.
pub(crate) fn take_pair(quads: &mut Quads, head: Word, tail: Word) -> Word
    requires { used quads.old.store < quads.old.room }
    ensures cells { Takes quads.old quads.new (OpenSlot (pair_quad head tail) ∷ []) }
    ensures word { result ≡ next_word quads.old }
{
    let q = Quad {
        t: Word::PAIR_T,
        x: head,
        y: tail,
        z: Word::UNDEF,
    };
    take(quads, &q)
}

// Takes a quad for a deque.
pub(crate) fn take_deque(quads: &mut Quads, front: Word, back: Word) -> Word
    requires { used quads.old.store < quads.old.room }
    ensures cells { Takes quads.old quads.new (OpenSlot (deque_quad front back) ∷ []) }
    ensures word { result ≡ next_word quads.old }
{
    let q = Quad {
        t: Word::DEQUE_T,
        x: front,
        y: back,
        z: Word::UNDEF,
    };
    take(quads, &q)
}
