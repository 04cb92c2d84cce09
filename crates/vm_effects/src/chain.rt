// Lists of cells that are linked by their last words.

ghost use Rattle.std.specs.Prelude.{◌≡◌, ◌<◌};
ghost use Rattle.cap_words.specs.Words.{nil};
ghost use Rattle.cap_words.specs.Store.{used};
ghost use Rattle.vm_effects.specs.Links.{extended};

use cap_words::Word;
use quad_memory::Quads;

// The ends of a list, and how many words it has. An empty one has `#nil` at both ends.
#[derive(Clone, Copy)]
pub(crate) struct Chain {
    pub(crate) first: Word,
    pub(crate) last: Word,
    pub(crate) count: u32,
}

impl Chain {
    pub(crate) fn empty() -> Chain
        ensures { result ≡ record { first = nil; last = nil; count = 0 } }
    {
        Chain {
            first: Word::NIL,
            last: Word::NIL,
            count: 0,
        }
    }

    // The list with one word more at its end.
    pub(crate) fn with(&self, word: Word, quads: &Quads) -> Chain
        requires { self.now.count < used quads.now.store }
        ensures { result ≡ extended self.now word }
    {
        // There are fewer words than quads, so the count has room.
        let _taken = quads.used();
        Chain {
            first: self.first_with(word),
            last: word,
            count: self.count + 1,
        }
    }

    fn first_with(&self, word: Word) -> Word
        ensures { result ≡ (extended self.now word).first }
    {
        if self.count == 0 { word } else { self.first }
    }
}
