// The cells that messages are made of.

ghost use Rattle.std.specs.Prelude.{◌≡◌};
ghost use Rattle.cap_words.specs.Seen.{seen, cell_seen};
ghost use Rattle.instr_table.specs.Lists.{pair_in};

use cap_words::{Quad, Word, is_same};
use quad_memory::Quads;

// The quad under a word.
#[tactic(auto, using(crate::proofs::Reading::reading))]
pub(crate) fn cell(quads: &Quads, word: Word) -> Option<Quad>
    ensures { result ≡ cell_seen (seen quads.now.store) word }
{
    quads.read(word)
}

// The words of a pair.
pub(crate) fn pair(quads: &Quads, word: Word) -> Option<Quad>
    ensures { result ≡ pair_in (cell_seen (seen quads.now.store) word) }
{
    let q = cell(quads, word)?;
    if is_same(q.t, Word::PAIR_T) {
        Some(q)
    } else {
        None
    }
}
