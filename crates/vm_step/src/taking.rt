// The cells that instructions read and take.

ghost use Rattle.std.specs.Prelude.{◌≡◌, ◌+◌, ◌^◌, ◌<◌, ◌≤◌, pos, unsigned_abs, [], ◌∷◌};
ghost use Rattle.cap_words.specs.Words.{Fix};
ghost use Rattle.cap_words.specs.Seen.{OpenSlot, seen, cell_seen};
ghost use Rattle.cap_words.specs.Store.{used};
ghost use Rattle.instr_table.specs.Lists.{pair_quad};
ghost use Rattle.vm_dict.specs.Made.{Takes};
ghost use Rattle.vm_dict.specs.Calls.{next_word};

use cap_words::{Quad, Word};
use quad_memory::Quads;

// The size of a number.
pub(crate) fn size(n: &i32) -> u32
    ensures { result ≡ unsigned_abs n.now }
{
    n.unsigned_abs()
}

// The word of a small number.
pub(crate) fn count_word(n: u32) -> Word
    requires { n ≤ 2 ^ 24 + 256 }
    ensures { result ≡ Fix (pos n) }
{
    Word::number_word(n as i32)
}

// The quad under a word.
#[tactic(auto, using(vm_dict::proofs::Reading::reading))]
pub(crate) fn cell(quads: &Quads, w: Word) -> Option<Quad>
    ensures { result ≡ cell_seen (seen quads.now.store) w }
{
    quads.read(w)
}

// Takes a quad for a cell and gives its word.
pub(crate) fn take(quads: &mut Quads, q: &Quad) -> Word
    requires { used quads.old.store < quads.old.room }
    ensures cells { Takes quads.old quads.new (OpenSlot q.now ∷ []) }
    ensures word { result ≡ next_word quads.old }
{
    quads.take(*q)
}

// Takes a quad for a pair.
pub(crate) fn take_pair(quads: &mut Quads, head: Word, tail: Word) -> Word
    requires { used quads.old.store < quads.old.room }
    ensures cells { Takes quads.old quads.new (OpenSlot (pair_quad head tail) ∷ []) }
    ensures word { result ≡ next_word quads.old }
{
    let q = Quad {
        t: Word::PAIR_T,
        x: head,
        y: tail,
        z: Word::UNDEF,
    };
    take(quads, &q)
}
