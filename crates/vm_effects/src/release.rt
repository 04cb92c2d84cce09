// What becomes of the actors that a commit hands out.

ghost use Rattle.std.specs.Prelude.{◌≡◌};
ghost use Rattle.cap_words.specs.Seen.{seen};
ghost use Rattle.cap_words.specs.Frame.{Framed};
ghost use Rattle.vm_effects.specs.Actors.{all_idle};
ghost use Rattle.vm_effects.specs.Gathered.{made_from, made_words, AreMade};

use crate::cells::{link_of, set_mark};
use cap_words::Word;
use quad_memory::Quads;

/// Makes each of so many linked actors idle, from this one on. The links go: a mark is either a link or says that the actor is idle.
pub fn make_idle(quads: &mut Quads, first: Word, count: u32)
    requires { AreMade quads.old.store count first }
    ensures seen { seen quads.new.store ≡ all_idle (seen quads.old.store) (made_from quads.old.store count first) }
    ensures frame { Framed quads.old.store quads.new.store (made_words (made_from quads.old.store count first)) }
    ensures room { quads.new.room ≡ quads.old.room }
{
    let mut word = first;
    for _ in 0..count {
        let next = link_of(quads, word);
        set_mark(quads, word, Word::UNDEF);
        word = next;
    }
}
